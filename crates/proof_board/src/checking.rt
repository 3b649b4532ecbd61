//! Checking a proof as an auditor does.

ghost use Rattle.std.specs.Prelude.{◌≡◌, ◌↔◌, Some, IsTrue, IfOk};
ghost use Rattle.sha2.specs.Sha256.{sha256};
ghost use Rattle.script_lines.specs.declared.said.Which.TheVariants.{Ledger};
ghost use Rattle.audit_core.specs.Trust.{root_of};
ghost use Rattle.audit_core.specs.Acceptance.{IsAccepted};
ghost use Rattle.ledger_bytes.specs.declared.digest.Digest.{Digest};
ghost use Rattle.proof_board.specs.Bare.{bare_claim};

use audit_core::{Heads, accept};
use ledger_bytes::{Digest, NoMemory, Sha};
use merkle_tree::Head;
use proof_codec::{Claim, Proof};
use std::alloc::Global;

/// A head of a ledger that is trusted, and no other.
#[derive(Drop)]
pub(crate) struct Trusted {
    pub(crate) head: Head,
    id: Digest,
    pub(crate) heads: Heads,
    ghost settled: { heads.id ≡ Some id },
    ghost trusted: { root_of Ledger heads head.size ≡ Some head.root },
}

impl Trusted {
    fn new(alloc: Global, id: &Digest, head: &Head) -> Result<Trusted, NoMemory>
        ensures { IfOk result (λ t. t.head ≡ head.now) }
    {
        let mut heads = Heads::new(alloc);
        match heads.trust_ledger(id, head) {
            Ok(()) => Ok(Trusted {
                head: *head,
                id: *id,
                heads,
            }),
            Err(_) => Err(NoMemory),
        }
    }

    /// The head, trusted: as before where it is the last one.
    pub(crate) fn of(
        alloc: Global,
        id: &Digest,
        last: Option<Trusted>,
        head: &Head,
    ) -> Result<Trusted, NoMemory>
        ensures { IfOk result (λ t. t.head ≡ head.now) }
    {
        match last {
            Some(last) if last.head == *head => Ok(last),
            _ => Trusted::new(alloc, id, head),
        }
    }
}

/// Whether an auditor who trusts these heads accepts the bytes as a proof, without bounds, of leaf `n`.
pub(crate) fn is_accepted(bytes: &[u8], n: u64, heads: &Heads) -> bool
    ensures { IsTrue result
        ↔ ((leaf : Digest) × IsAccepted sha256 bytes.now (bare_claim n leaf) heads.now) }
{
    let Ok(proof) = Proof::decode(bytes) else {
        return false;
    };
    let claim = Claim {
        n,
        leaf: proof.leaf,
        lo: None,
        hi: None,
    };
    accept::<Sha>(bytes, &claim, heads).is_ok()
}
