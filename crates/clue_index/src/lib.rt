//! An index of clues: how many journals each clue has, which is the last, and which of them are kept.
#![tactic(auto)]

mod index;
mod laws;
mod slot;
mod state;

pub use index::ClueIndex;
pub use laws::{states_are_in_order, states_carry_on};
pub use state::ClueState;
