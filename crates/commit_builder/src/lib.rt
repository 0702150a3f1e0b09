//! Builds a commit: puts the manifests and the manifest list of a change laid on the head of a branch, and makes the text
//! of the next version's metadata.
//!
//! In all files that keep what was put, the branch of that version holds the live files of the head with the change laid on
//! them, and so the rows that go with them. What a commit asks of its head holds of each table of the form that is read so
//! far (`form_laws`).
#![tactic(auto)]

mod commit;
mod form_laws;
mod head;
mod laws;
mod row_laws;
mod snapshot_ids;
mod writing;

pub use commit::{Prepared, prepare};
pub use form_laws::{
    a_change_of_a_table_in_form_can_be_laid, a_table_has_numbers, a_table_in_form_can_be_rewritten,
    a_written_file_can_be_added, written_files_can_be_read,
};
pub use laws::{
    a_change_can_be_laid, a_commit_can_follow, a_commit_holds_the_change,
    a_prepared_version_holds_the_change, the_next_id_is_new,
};
pub use row_laws::the_next_version_has_the_rows;
