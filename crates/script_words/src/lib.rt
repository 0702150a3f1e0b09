//! The words of a script: what a text is cut into before its statements are read. Each word has the line that it begins on.
//!
//! The words are a total function of the bytes, read by a machine with one state for each place within a word.
#![tactic(auto)]

mod keyword;
mod lexer;
mod plain_name;
mod states;
mod word;

pub use keyword::Keyword;
pub use plain_name::is_plain_name;
pub use plain_types::{Bytes, List};
pub use states::words_of;
pub use word::{Mark, Placed, Word};
