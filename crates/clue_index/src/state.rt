//! The state of a clue at a point, from which an index goes on when the journals in front are gone.

use ledger_bytes::Digest;

/// A clue's state at a point of the ledger.
#[derive(Clone, Copy, Debug, PartialEq, Eq)]
pub struct ClueState {
    /// The clue, which isn't zero.
    pub clue: Digest,
    /// How many journals of the clue there are below the point, at least 1.
    pub count: u32,
    /// The number of the last of them.
    pub last: u64,
}
