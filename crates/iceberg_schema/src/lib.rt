//! The JSON of a table's schemas and partition specs, read and written (Iceberg specification, Appendix C).
//!
//! A reading call answers exactly what its definition in `specs/` says of the JSON, a value or its first fault, or else want
//! of memory. A schema that is read is sound (`SoundSchema`), and so is a spec (`SoundSpec`).
#![tactic(auto)]

mod keys;
mod kind_text;
mod members;
mod schema_fault;
mod schema_reading;
mod schema_writing;
mod spec_fault;
mod spec_reading;
mod spec_writing;
mod transform_text;

pub use keys::{
    all_objects, has_id, has_twice, in_int, int_at, items_at, long_at, members_at, text_at,
    whole_of,
};
pub use schema_fault::SchemaJsonFault;
pub use schema_reading::read_table_schema;
pub use schema_writing::schema_text;
pub use spec_fault::{SpecFault, TransformFault};
pub use spec_reading::read_spec;
pub use spec_writing::spec_text;
pub use transform_text::read_transform;
