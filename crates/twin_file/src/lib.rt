//! Two files that take turns: one is open, and a copy of it is made in the other, which takes over when it is
//! opened. No call takes memory.
#![tactic(auto)]

mod copy;
mod parts;
mod picking;
mod twin;

pub use parts::clear;
pub use twin::Twin;
