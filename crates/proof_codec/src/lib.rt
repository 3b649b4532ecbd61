//! Journal proofs: what a proof claims, its one spelling, and its reading without a copy.
#![tactic(auto)]

mod bound;
mod claim;
mod laws;
mod proof;
mod reading;
mod writing;

pub use bound::{Lower, Upper};
pub use claim::Claim;
pub use laws::proofs_have_room;
pub use proof::{PROOF_LIMIT, Proof};
