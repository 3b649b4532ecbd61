//! Whether the bounds in time that a proof shows lead to the trusted roots of the ledger and of its notary.

ghost use Rattle.std.specs.Prelude.{◌≡◌, Some};
ghost use Rattle.audit_core.specs.Bounds.{lower_leads, upper_leads, is_noted, lower_noted, upper_noted, in_order};

use crate::known::KnownLedger;
use crate::leading::{path_leads, proof_leads};
use ledger_bytes::{Digest, TreeHash};
use merkle_tree::leaf_of;
use proof_codec::{Lower, Proof};
use time_peg::{TimeMark, entry_bytes, peg_of};

// Does the lower bound, if any, stand in front of the journal, and lead to the ledger's root?
pub(crate) fn lower_leads<H: TreeHash>(proof: &Proof, ledger: &KnownLedger) -> bool
    ensures { result ≡ lower_leads H.of ledger.now proof.now proof.now.lo }
{
    match &proof.lo {
        Some(lower) => stands_in_front::<H>(proof, lower, ledger),
        None => true,
    }
}

fn stands_in_front<H: TreeHash>(proof: &Proof, lower: &Lower, ledger: &KnownLedger) -> bool
    ensures { result ≡ lower_leads H.of ledger.now proof.now (Some lower.now) }
{
    let m = lower.header.jsn;
    let leaf = leaf_of::<H>(&lower.header.encode());
    m < proof.n
        && path_leads::<H>(&ledger.root, &leaf, m, proof.size, lower.path)
        && proof_leads::<H>(&ledger.root, m, &lower.root, proof.size, lower.ext)
}

// Is the journal one of those in front of the upper bound, if any, and does that lead to the ledger's root?
pub(crate) fn upper_leads<H: TreeHash>(proof: &Proof, ledger: &KnownLedger) -> bool
    ensures { result ≡ upper_leads H.of ledger.now proof.now proof.now.hi }
{
    match &proof.hi {
        Some(upper) => {
            let m = upper.mark.jsn;
            proof.n < m && proof_leads::<H>(&ledger.root, m, &upper.root, proof.size, upper.ext)
        }
        None => true,
    }
}

// Does the notary's entry for the lower bound, if any, lead to the notary's root?
pub(crate) fn lower_noted<H: TreeHash>(
    proof: &Proof,
    ledger: &KnownLedger,
    notary: Option<Digest>,
) -> bool
    ensures { result ≡ lower_noted H.of ledger.now notary proof.now proof.now.lo }
{
    match &proof.lo {
        Some(lower) => is_noted::<H>(
            ledger,
            notary,
            proof.notary_size,
            &lower.mark(),
            &lower.root,
            &lower.header.link,
            proof.lo_path,
        ),
        None => true,
    }
}

// Does the notary's entry for the upper bound, if any, do so?
pub(crate) fn upper_noted<H: TreeHash>(
    proof: &Proof,
    ledger: &KnownLedger,
    notary: Option<Digest>,
) -> bool
    ensures { result ≡ upper_noted H.of ledger.now notary proof.now proof.now.hi }
{
    match &proof.hi {
        Some(upper) => is_noted::<H>(
            ledger,
            notary,
            proof.notary_size,
            &upper.mark,
            &upper.root,
            &upper.salt,
            proof.hi_path,
        ),
        None => true,
    }
}

// Does the entry that pegs the first journals of the ledger, with their root, at this mark stand in the notary's tree?
fn is_noted<H: TreeHash>(
    ledger: &KnownLedger,
    notary: Option<Digest>,
    size: u64,
    mark: &TimeMark,
    root: &Digest,
    salt: &Digest,
    path: &[u8],
) -> bool
    ensures { result ≡ is_noted H.of ledger.now notary size mark.now root.now salt.now path.now }
{
    let Some(notary) = notary else {
        return false;
    };
    let peg = peg_of::<H>(&ledger.id, mark.jsn, root);
    let entry = entry_bytes(mark.time, &peg, salt);
    path_leads::<H>(&notary, &leaf_of::<H>(&entry), mark.index, size, path)
}

// Is the time of the lower bound, where there are both, at most that of the upper one?
pub(crate) fn in_order(proof: &Proof) -> bool
    ensures { result ≡ in_order proof.now.lo proof.now.hi }
{
    match (&proof.lo, &proof.hi) {
        (Some(lower), Some(upper)) => lower.header.b <= upper.mark.time,
        _ => true,
    }
}
