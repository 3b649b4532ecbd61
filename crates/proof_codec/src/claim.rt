//! What a proof is to show of a journal.

use ledger_bytes::{Digest, TimeMark};

/// What is claimed of a journal: that the ledger has it, and when it was placed.
#[derive(Clone, Copy, Debug, PartialEq, Eq)]
pub struct Claim {
    /// The journal's number.
    pub n: u64,
    /// The digest of its leaf in the ledger's tree.
    pub leaf: Digest,
    /// A time journal in front of it: the journal is not older.
    pub lo: Option<TimeMark>,
    /// A time journal that has it in front: the journal is not younger.
    pub hi: Option<TimeMark>,
}
