//! What no contract says of the top calls of both programs: many lanes, faults of the disk, and lines that aren't held back.
#![tactic(auto)]

#[cfg(test)]
mod audits;
#[cfg(test)]
mod ledgers;
