//! Lineages: runs of records of one clue, which an auditor checks under one head of the ledger, without the ledger.
#![tactic(auto)]

mod acceptance;
mod answer;
mod item;
mod judgement;
mod laws;
mod layout;
mod making;
mod reading;

pub use acceptance::accept_lineage;
pub use answer::{LineageErr, LineageNo, LineageVerdict, Run};
pub use judgement::judge_lineage;
pub use laws::{
    accepted_lineages_are_true, lawful_headers_keep_the_clue_rule, lineages_have_one_spelling,
    true_lineages_are_whole,
};
pub use making::lineage;
