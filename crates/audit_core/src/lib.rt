//! The auditor's judgement. It trusts nothing but the heads that it was given.
#![tactic(auto)]

mod acceptance;
mod bounds;
mod extension;
mod heads;
mod judgement;
mod known;
mod laws;
mod leading;
mod parts;
mod pieces;
mod refusal;
mod truth;
mod verdict;

pub use acceptance::accept;
pub use extension::check_extension;
pub use heads::Heads;
pub use judgement::judge;
pub use laws::{
    a_notary_can_be_honest, accepted_proofs_stay_accepted, claims_stay_true, extension_is_true,
    extensions_are_true, honest_bounds_are_moments, yes_is_true, yes_stays_true,
};
pub use parts::placed_differs;
pub use refusal::{No, TrustErr};
pub use verdict::Verdict;
