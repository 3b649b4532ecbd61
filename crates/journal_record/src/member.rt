//! A member of a ledger.

use ledger_bytes::Digest;

/// Whoever may place journals, or approve what is done to them.
#[derive(Clone, Copy, Debug, PartialEq, Eq)]
pub struct Member {
    /// The key that its proofs show.
    pub key: Digest,
    /// The number of the journal that admitted it; 0 for the operator and the regulator.
    pub jsn: u64,
}
