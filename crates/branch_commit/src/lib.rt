//! Plans one statement on the current version of its table, validates the plan against a later version, and swaps in the
//! version that carries it.
//!
//! A plan fixes what the statement read and brings the change that its new data files hold (`specs/Planning.antt`). Validation
//! finds a verdict on the branch as it now stands and, where nothing stands against the statement, the next version. A swap is
//! won, lost or known to have failed; only where the store can't say is its outcome unknown. A committed statement leaves the
//! rows that the statement leaves by SQL.
#![tactic(auto)]

mod current;
mod found;
mod laws;
mod next;
mod outcome;
mod planning;
mod plans;
mod swapping;
mod validating;

pub use current::load_current;
pub use found::{CommitFault, Found, Validated};
pub use laws::{
    a_committed_statement_leaves_its_rows, a_loaded_branch_stands_when_files_are_added,
    rows_of_data_files_are_of_the_columns,
};
pub use next::has_next;
pub use outcome::{Outcome, Pending, PlanFault, Planned};
pub use planning::plan;
pub use plans::plan_of;
pub use store_core::SwapAnswer;
pub use swapping::{SwapFault, swap};
pub use validating::validate;
