//! Parts of what a line says: an approval, and which of two trees is meant.

use ledger_bytes::Bytes;

/// An approval as a line gives it.
#[derive(Debug, Drop)]
pub struct SaidApproval {
    /// The member's number.
    pub member: u32,
    /// The member's proof, up to 4,096 bytes.
    pub proof: Bytes,
}

/// One of the two trees that a head and an extension speak of.
#[derive(Clone, Copy, Debug, PartialEq, Eq)]
pub enum Which {
    /// The tree over the ledger's journals.
    Ledger,
    /// The tree over the notary's entries.
    Notary,
}
