//! The words of the command line: which command they ask for, with its options.
//!
//! The words ask for exactly one command, or for none. What they ask for is a definition of its own
//! (`specs/Words.antt`), so the parser's library has no say in what is accepted.
#![tactic(auto)]

mod options;
mod words;

pub use words::{Command, WordsFault, read_words};
