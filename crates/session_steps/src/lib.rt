//! The steps of a session: a statement plans on the current version, is validated against it, and swaps in the next one.
//!
//! A step is the machine's over the files that were there before it. A table that a session works on is open (`IsOpen`): its
//! current version is read, has its form, and its rows can be read. Every step leaves it open, so no step has to ask it of the
//! table again.
#![tactic(auto)]

mod fault;
mod laws;
mod machine_laws;
mod open_laws;
mod planning;
mod session;
mod stepping;
mod swapping;
mod validating;
mod work_laws;

pub use fault::RunFault;
pub use laws::a_step_on_an_open_table_can_be_read;
pub use machine_laws::{
    a_plan_finds_what_the_machine_says, a_statement_that_keeps_all_leaves_the_rows,
    a_validation_finds_what_the_machine_says,
};
pub use open_laws::{
    a_committed_statement_keeps_the_table_open, a_prepared_version_is_the_next_one,
};
pub use session::Session;
pub use stepping::step;
pub use work_laws::{a_table_stays_open, names_of_files_are_no_versions};
