//! What a notary answers.

use ledger_bytes::Digest;

/// What a notary answers to what it stamped: its entry.
#[derive(Clone, Copy, Debug, PartialEq, Eq)]
pub struct Stamp {
    /// The entry's place in the notary's list, from 0.
    pub index: u64,
    /// The entry's time, in milliseconds.
    pub time: u64,
    /// 32 bytes that nobody could tell before.
    pub salt: Digest,
}
