//! Reads manifest lists and manifests: the rows of a list, and the entries of a manifest with the numbers that they
//! inherit from its row.
//!
//! What is read is exactly what `specs/Lists.antt` and `specs/Entries.antt` say. Where the fields stand in the records is
//! settled once, with the faults of the file's schema in the order of the fields; then each record gives a row or an
//! entry, or the first fault.
#![tactic(auto)]

mod datum_values;
mod entry;
pub mod field_ids;
mod field_type;
mod finding;
mod known_column;
mod laws;
mod layout;
mod list;
mod manifest;
mod manifest_fault;
mod manifest_row;
mod needed;
mod numbers;
mod partition_kinds;
mod places;
mod statistics;

pub use entry::{Content, Entry};
pub use laws::entries_are_of_their_spec;
pub use list::read_list;
pub use manifest::read_manifest;
pub use manifest_fault::ManifestFault;
pub use manifest_row::{ManifestContent, ManifestRow};
pub use partition_kinds::kind_of_field;
