//! What no contract says of the crates between a line and the book: printed text, and a call of each on its happy path.
#![tactic(auto)]

#[cfg(test)]
mod bases;
mod books;
#[cfg(test)]
mod clues;
#[cfg(test)]
mod erasures;
#[cfg(test)]
mod lanes;
#[cfg(test)]
mod line_fields;
#[cfg(test)]
mod members;
#[cfg(test)]
mod occults;
#[cfg(test)]
mod purges;
#[cfg(test)]
mod replies;
#[cfg(test)]
mod verbs;
