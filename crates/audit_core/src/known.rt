//! What a proof is held against: the ledger's id, and the root of its tree at one size.

use ledger_bytes::Digest;

/// What is known of a ledger at one size.
#[derive(Clone, Copy, Debug, PartialEq, Eq)]
pub(crate) struct KnownLedger {
    pub(crate) id: Digest,
    /// The root of its tree.
    pub(crate) root: Digest,
}
