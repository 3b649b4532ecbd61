//! What no contract says of a board: worked proofs, provers that run beside the writer, and a call of each on its happy path.
#![tactic(auto)]

#[cfg(test)]
mod provers;
#[cfg(test)]
mod rows;
#[cfg(test)]
mod trees;
#[cfg(test)]
mod turns;
