//! The manifests of a commit: which entries each holds, and which of the head stand (Iceberg specification, "Manifests" and
//! "Manifest Lists"); and the row of a manifest list that says what a written manifest holds.
//!
//! All manifests together hold live the files of the head with the change laid on them, each once (`held_after`). The counts,
//! the least sequence number and the bounds of a row are exact.
#![tactic(auto)]

mod commit_numbers;
mod counts;
mod drafts;
mod laws;
mod parts;
mod row;
mod sequence;
mod sorting;
mod summary;

pub use commit_numbers::CommitNumbers;
pub use drafts::{Draft, Drafts, unpartitioned};
pub use laws::{a_least_number_is_exact, a_row_can_be_listed, a_summary_is_exact};
pub use row::row_of;
pub use sorting::{Commit, Sorted};
