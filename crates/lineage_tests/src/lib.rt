//! What no contract says of lineages: each call on its happy path, and a lineage that shows a clash over the toy hash. Worked
//! lineages are rows of `worked_rows`.
#![tactic(auto)]

#[cfg(test)]
mod judging;
#[cfg(test)]
mod making;
