//! Which rows of a branch a statement hits, the data files that hold one with all their rows, and what the statement decides
//! of them, or why it is refused.
//!
//! Rows that the filter leaves out have no say in what is decided. What is left of the branch without the scanned files, with
//! the rows that the decisions leave, is as a bag what the statement leaves of the whole.
#![tactic(auto)]

mod copy_laws;
mod deciding;
mod decision_laws;
mod effects;
mod hits;
mod laws;
mod live_rows;
mod ordering;
mod scanning;

pub use copy_laws::copies_do_what_the_statement_does;
pub use deciding::decide;
pub use decision_laws::{
    hit_rows_are_of_the_columns, the_hits_decide_for_the_branch, what_is_decided_is_of_the_columns,
};
pub use laws::rows_of_a_branch_are_its_files;
pub use scanning::scan;
