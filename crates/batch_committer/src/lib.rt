//! Jobs are judged one after the other and their journals gathered into blocks; blocks are committed on the two disks of an
//! opened ledger, and replies written: a receipt only once its block is on the disk for good.
#![tactic(auto)]

mod commit;
mod committer;
mod dues;
mod failure;
mod getting;
mod giving;
mod laws;
mod open_block;
mod proving;
mod queries;
mod taking;

pub use committer::Committer;
pub use failure::CommitErr;
pub use laws::{
    a_held_history_is_lawful, a_held_ledger_is_clean, a_new_ledger_is_held,
    an_opened_ledger_is_held,
};
