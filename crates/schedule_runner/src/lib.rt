//! Runs a script on a table that is open and that nobody else changes, to its end or to a fault with its cause, and counts
//! the rows of its branches.
//!
//! The steps of a run are the machine's, one after another over the files that are there before each. At each front of the
//! steps the rows of the branch are those of a serial run of the statements carried out so far (`specs/Running.antt`).
#![tactic(auto)]

mod blocks;
mod counting;
mod finishing;
mod going_on;
mod laws;
mod running;

pub use counting::count_rows;
pub use finishing::{Run, run_session};
pub use laws::{
    a_lone_session_meets_no_conflict, a_run_goes_on_by_a_step, a_run_stands_when_files_are_added,
    a_session_runs_from_its_begin_to_its_end, a_step_carries_a_serial_run_on,
    a_step_is_of_the_statement_at_hand, a_step_that_fails_ends_a_run, a_step_that_is_made_goes_on,
};
pub use running::run_script;
