//! Times that a notary tells, and the marks that they leave in a ledger.
#![tactic(auto)]

mod entry;
mod filling;
mod index;
mod laws;
mod notary;

pub use entry::{ENTRY_LEN, entry_bytes, peg_of};
pub use index::TimeIndex;
pub use journal_record::Stamp;
pub use laws::{bounds_are_nearest, lists_grow};
pub use ledger_bytes::TimeMark;
pub use notary::{Notary, NotaryErr};
