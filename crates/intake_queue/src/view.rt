//! What each pass of a queue knows, in the proofs alone.

use std::collections::LinkedList;

/// What a pass knows, for the proofs alone: no value of it is made. `taker`, `sender`, `unopened` and `spent` (specs/Lanes)
/// are the views that occur.
pub struct View<T> {
    /// It is the taker's.
    pub gets: bool,
    /// It is a lane's.
    pub sends: bool,
    /// Each lane's first index and quota.
    pub plan: LinkedList<(u64, u64)>,
    /// Of a lane's: which lane, and what it sent.
    pub lane: u64,
    pub sent: LinkedList<T>,
    /// Of the taker's: what was taken.
    pub got: LinkedList<T>,
    /// .. how many lanes were given passes of their own: the first ones, in order.
    pub lent: u64,
    /// .. and what those sent whose passes came back: the first ones, in order.
    pub back: LinkedList<LinkedList<T>>,
}
