//! What a statement reads of a branch, what it decides of the rows, and what it changes: the files that it removes and adds,
//! how they are laid on the live set, and what stands against that on a later version of the branch.
//!
//! A change is laid on a live set by the files alone, so it says the same of every head. A verdict names the rule and the file
//! that a statement conflicts with, or that nothing does.
#![tactic(auto)]

mod change;
mod copies;
mod laws;
mod least_path;
mod rule;
mod rules;
mod said;
mod same;
mod scanned;

pub use change::{AddedAs, ChangeSet, Plan, added, kept, removed};
pub use copies::{copy_entry, copy_manifest_row};
pub use laws::rows_of_files_are_a_bag;
pub use rule::Rule;
pub use rules::{is_absent, verdict};
pub use said::Said;
pub use same::{is_among, is_same_file};
pub use scanned::{Decision, Decisions, LiveRow, ScannedFile};
