//! The members of a ledger: their keys, who may be admitted, and how their approvals are judged.
#![tactic(auto)]

mod approvals;
mod book;
mod verifier;

pub use book::{AddErr, MemberBook};
pub use journal_record::{Approval, Member, who_bytes};
pub use verifier::{TagScheme, Verifier, tag_proof};
