//! The schema file that a table is made by: a JSON object with the schema under `schema`, and perhaps the partition fields
//! under `partition-spec` and the table's properties under `properties`.
#![tactic(auto)]

mod definition;
mod identifier;
mod last_ids;
mod nesting;
mod new_table;

pub use definition::{Definition, DefinitionFault, read_definition};
pub use new_table::first_text;
