//! The dump of an opened ledger is written to a sink, in pieces: what stands in front of the journals, then one journal after the
//! other, each read from the open file and held against its header's digests, and then the ledger's head and the notary's list.
#![tactic(auto)]

mod export;
mod failure;
mod front;
mod journal;
mod journals;
mod page;
mod piece;
mod tail;

pub use export::write_dump;
pub use failure::DumpErr;
pub use journal::dump_journal;
