//! Writes manifest lists and manifests, whose rows and entries are read again.
//!
//! Each writer has a law in terms of the reader of `manifest_files`: rows and entries that fit their columns are read from the
//! text as they were. What was read fits, so a manifest of the head can always be written anew.
#![tactic(auto)]

mod entry_datum;
mod entry_schema;
mod fact;
mod fact_datum;
mod fact_schema;
mod laws;
mod list;
mod list_datum;
mod list_schema;
mod manifest;
mod manifest_meta;
mod part_datum;
mod part_names;
mod part_schema;
mod rewriting_laws;
mod value;

pub use entry_datum::entry_size;
pub use laws::a_written_manifest_is_read_again;
pub use list::{a_written_list_is_read_again, write_list};
pub use manifest::write_manifest;
pub use rewriting_laws::{entries_that_are_read_can_be_written, rows_that_are_read_can_be_listed};
