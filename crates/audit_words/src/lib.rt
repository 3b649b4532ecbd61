//! The words of the command line of `auditctl`, read with `clap`, and which of them are taken.
#![tactic(auto)]

mod words;

pub use words::{Wanted, WordsErr, read_words, words_are_read};
