//! Writes the JSON of an Iceberg table's metadata of format version 2: its text, and what stands in it after a commit.
//!
//! A text that is written reads back as the same data, and metadata that was read as the same metadata, its unread keys
//! among it.
#![tactic(auto)]

mod commit;
mod edits;
mod laws;
mod new_table;
mod writing;

pub use commit::{text_with_snapshot, with_snapshot};
pub use laws::{
    a_commit_can_be_written, a_commit_is_read, a_first_version_is_read, old_snapshots_stay,
    other_branches_leave_the_current_snapshot, other_keys_stay, other_refs_stay,
    the_first_version_can_be_written, the_head_of_main_is_current, the_needed_keys_stay,
    the_number_and_the_time_are_read, the_schema_stays, the_snapshot_is_read,
};
pub use new_table::{NewTable, first_version, spec_json};
pub use writing::{metadata_text, text};
