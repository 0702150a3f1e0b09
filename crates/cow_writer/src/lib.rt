//! Copy-on-write: the data files that lose a row are removed, and their other rows are written anew with the rows that a
//! statement makes.
//!
//! The new files hold exactly those rows, in files of at most so many rows and bytes, under names that were free; no other
//! name of the store is touched.
#![tactic(auto)]

mod deciding;
mod laws;
mod pieces;
mod touched;
mod writing;

pub use laws::{a_copy_holds_the_rows_after, written_rows_are_of_their_columns};
pub use writing::{schema_of, write_copies};
