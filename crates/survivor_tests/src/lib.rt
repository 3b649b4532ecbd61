//! What no contract says of sets of survivors: a worked set is read, and cut and changed ones are told; sets are kept, judged,
//! carried and revived over the files of a worked ledger, before and behind its purges.
#![tactic(auto)]

#[cfg(test)]
mod ledgers;
#[cfg(test)]
mod rows;
#[cfg(test)]
mod sets;
