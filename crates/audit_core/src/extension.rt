//! Whether the auditor accepts that the tree of a later head goes on from that of a trusted one.

ghost use Rattle.std.specs.Prelude.{◌≡◌, ◌↔◌, IsOk};
ghost use Rattle.audit_core.specs.Extending.{extension, IsExtension};

use crate::leading::proof_leads;
use crate::{Heads, No};
use ledger_bytes::TreeHash;
use merkle_tree::Head;
use proof_codec::PROOF_LIMIT;
use script_lines::Which;

/// Accepts that the tree of a trusted head with `m` leaves is the beginning of the tree of another head, by the digests
/// of a proof of that, one after the other (RFC 6962, section 2.1.2). The first of these that holds is the answer:
/// `Malformed` where the bytes are more than [`PROOF_LIMIT`], with that limit, or no whole digests, with their number;
/// `HeadUnknown` where no head of size `m` is trusted; `BadExtension` where the digests don't lead from its root to
/// the new one; `HeadDiffers` where another root of the new size is trusted, with that root.
pub fn check_extension<H: TreeHash>(
    which: Which,
    m: u64,
    head: &Head,
    proof: &[u8],
    heads: &Heads,
) -> Result<(), No>
    ensures exact { result ≡ extension H.of which m head.now proof.now heads.now }
    // Yes comes exactly where the digests lead from a trusted root to this one, and no other is trusted at its size.
    ensures yes { IsOk result ↔ IsExtension H.of which m head.now proof.now heads.now }
{
    answer_of::<H>(which, m, head, proof, heads)
}

fn answer_of<H: TreeHash>(
    which: Which,
    m: u64,
    head: &Head,
    proof: &[u8],
    heads: &Heads,
) -> Result<(), No>
    ensures { result ≡ extension H.of which m head.now proof.now heads.now }
{
    if proof.len() > PROOF_LIMIT {
        return Err(No::Malformed {
            at: PROOF_LIMIT as u64,
        });
    }
    if proof.len() % 32 != 0 {
        return Err(No::Malformed {
            at: proof.len() as u64,
        });
    }
    let Some(old) = heads.root_of(which, m) else {
        return Err(No::HeadUnknown { size: m });
    };
    if !proof_leads::<H>(&head.root, m, &old, head.size, proof) {
        return Err(No::BadExtension);
    }
    match heads.root_of(which, head.size) {
        Some(kept) if kept != head.root => Err(No::HeadDiffers { kept }),
        _ => Ok(()),
    }
}
