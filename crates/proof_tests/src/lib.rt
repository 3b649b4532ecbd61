//! What no contract says of the crates of trees, proofs and notaries: worked digests, and a call of each on its happy path.
#![tactic(auto)]

#[cfg(test)]
mod extensions;
#[cfg(test)]
mod growing;
#[cfg(test)]
mod making;
#[cfg(test)]
mod notaries;
#[cfg(test)]
mod pegs;
#[cfg(test)]
mod points;
#[cfg(test)]
mod spellings;
#[cfg(test)]
mod trees;
