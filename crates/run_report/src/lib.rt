//! The report of a run, as bytes: what its sessions do step by step, how each statement ends, the rows that it selects and
//! how many rows each branch has in the end. One run has one report.
//!
//! Rows are records of `csv`'s default settings, in the order of their records' bytes, so that one bag of rows has one text. A
//! line feed within a line is written as the two characters `\n`.
#![tactic(auto)]

mod escapes;
mod fields;
mod lines;
mod records;
mod refusals;
mod rows;
mod steps;

pub use escapes::put_escaped;
pub use fields::put_field;
pub use lines::{answer_line, branch_line, event_line};
pub use records::sorted_records;
pub use refusals::is_refused;
pub use rows::{put_line, put_rows};
pub use steps::{name_of, put_branch, put_step, put_steps};
