//! The state of a ledger's history: what is kept of it to judge each job, to place its journals and to end blocks.
//! A call costs no more than what it touches; the root at a block's end costs a hash for each level of the tree.
#![tactic(auto)]

mod book;
mod fronts;
mod headers;
mod hiders;
mod laws;
mod numbers;
mod prepared;
mod sealed;

pub use book::Book;
pub use headers::first_header;
pub use laws::{
    room_changes_nothing, the_next_is_seen_from_behind, the_next_is_seen_from_the_first,
};
pub use ledger_model::{Genesis, Job, Limits, Outcome, PlacedJournal, Query, View};
pub use prepared::Prepared;
pub use sealed::Sealed;
