//! Writes the rows of a data file, which are read again as the same rows.
//!
//! A column's value stands in the field with the column's id, an optional column's in a union with null. The type of the rows
//! is made of the columns alone, so a file of any rows of the columns is read in them.
#![tactic(auto)]

mod column_names;
mod columns_rows;
mod datums;
mod fields;
mod kinds;
mod laws;
mod names;
mod row_datum;
mod row_schema;
mod writer;

pub use columns_rows::are_rows;
pub use datums::{null_branch, value_branch, value_datum};
pub use fields::{field, items_type, map_type, optional_type, record_type};
pub use kinds::kind_type;
pub use laws::{a_short_row_takes_few_bytes, what_is_written_is_read};
pub use names::{decimal_name, id_name, is_name};
pub use row_datum::row_size;
pub use writer::write_rows;
