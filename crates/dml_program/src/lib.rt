//! Row-level changes of Apache Iceberg tables, from the words of a command line: the top call `run_program`, over any store,
//! inputs, output and clock.
//!
//! Its clauses say which answer the words and the files want, wherever all that the command looks at tells; that the status
//! which comes back carries that answer or names what failed; and that a failure is named only where a call failed. The clause
//! `runs` says what a run of a script leaves.
#![tactic(auto)]

mod begin;
mod create;
mod laws;
mod open;
mod report;
mod run;
mod script_run;
mod status;
mod twice;

pub use laws::printed_rows_are_those_of_main;
pub use run::run_program;
pub use status::{ScriptKind, Status, TableKind};
