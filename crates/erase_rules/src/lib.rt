//! What an erasure is accepted or refused for: an occult, which hides the content of one journal, an occult by clue, which
//! hides those of all records of a clue, and a purge, which gives up all journals in front of a point.
//!
//! A judge looks at plain facts of the journal or the clue that is named, so it needs no ledger. The facts are looked at first, in
//! a fixed order, and then the approvals. That the ledger is full isn't judged here.
#![tactic(auto)]

mod clue_occult;
mod occult;
mod purge;

pub use clue_occult::{ClueFacts, clue_refusal, judge_clue_occult};
pub use occult::{OccultFacts, judge_occult, target_refusal};
pub use purge::{PurgeFacts, judge_purge};
