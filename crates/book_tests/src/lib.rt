//! What no contract says of the book, the committer and the opening of a ledger: printed text, faults in mid-stream, and a
//! call of each on its happy path.
#![tactic(auto)]

#[cfg(test)]
mod books;
#[cfg(test)]
mod committing;
#[cfg(test)]
mod grouping;
#[cfg(test)]
mod opening;
