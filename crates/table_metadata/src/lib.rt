//! Reads the JSON of an Iceberg table's metadata of format version 2, of its schemas and of its partition specs.
//!
//! Each call answers exactly what `specs/` says of the JSON, a value or its first fault, or else want of memory. Each reading
//! function has a definition of its own there, of the same shape and mostly of the same name, and the passes of
//! `read_metadata` are its steps in order, so that a class of faults is looked for only where the whole file is free of
//! the earlier ones. What is read is sound whatever the bytes: schemas and specs alone (`SoundSchema`, `SoundSpec`), and the
//! whole together (`Coherent`).
#![tactic(auto)]

mod by_id;
mod field_ids;
mod floats;
mod laws;
mod metadata;
mod metadata_fault;
mod missing_keys;
mod properties;
mod reading;
mod references;
mod schema_list;
mod snapshots;
mod table_keys;

pub use by_id::{current_schema, schema_with, snapshot_with, spec_with};
pub use laws::what_is_read_is_sound;
pub use metadata::Metadata;
pub use metadata_fault::MetadataFault;
pub use properties::{Properties, WriteMode, read_table_properties};
pub use reading::{read_json, read_metadata};
pub use references::RefItem;
pub use snapshots::Snapshot;
