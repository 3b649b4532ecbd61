//! Whether a path leads from a leaf's digest to a root, and a proof from an old root to a new one.

ghost use Rattle.std.specs.Prelude.{◌≡◌};
ghost use Rattle.audit_core.specs.Leading.{path_leads, proof_leads};

use ledger_bytes::{Digest, TreeHash};
use merkle_tree::{fold_path, fold_proof};

// Does a digest, as that of leaf `n` of so many, lead along the path to this root?
pub(crate) fn path_leads<H: TreeHash>(
    root: &Digest,
    digest: &Digest,
    n: u64,
    size: u64,
    path: &[u8],
) -> bool
    ensures { result ≡ path_leads H.of root.now digest.now.0 n size path.now }
{
    match fold_path::<H>(digest, n, size, path) {
        Some(folded) => folded == *root,
        None => false,
    }
}

// Does an old root, as that of the first `m` leaves of so many, lead along the proof to this root?
pub(crate) fn proof_leads<H: TreeHash>(
    root: &Digest,
    m: u64,
    old: &Digest,
    size: u64,
    proof: &[u8],
) -> bool
    ensures { result ≡ proof_leads H.of root.now m old.now size proof.now }
{
    match fold_proof::<H>(m, old, size, proof) {
        Some(folded) => folded == *root,
        None => false,
    }
}
