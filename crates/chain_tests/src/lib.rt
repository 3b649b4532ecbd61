//! What no contract of the scheme of chains says: worked digits, each call once, and what a proof is judged by whoever knows the secrets.
//! Worked keys and proofs are rows of `worked_rows`.
#![tactic(auto)]

#[cfg(test)]
mod judging;
#[cfg(test)]
mod making;
