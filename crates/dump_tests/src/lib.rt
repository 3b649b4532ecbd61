//! What no contract says of audits: the reports of a worked dump and of changed ones, and a read that fails in mid-stream.
#![tactic(auto)]

#[cfg(test)]
mod audits;
#[cfg(test)]
mod dump;
