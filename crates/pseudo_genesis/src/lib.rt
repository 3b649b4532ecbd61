//! The pseudo-genesis of a ledger, or base: what stands for the journals that were given up in a purge.
#![tactic(auto)]

mod base;
mod reading;
mod writing;

pub use base::{Base, BaseErr, CLUE_LIMIT, POINT_LIMIT, base_digest};
