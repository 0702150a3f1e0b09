//! Reads the rows of a table from an Avro container, each column from the field that carries its id.
//!
//! What is read is exactly what `specs/Rows.antt` says: where the columns' values stand in the records is settled once,
//! with the faults of the file's schema in the order of the columns, and then each record gives a row or the first
//! fault. A row that is read is a row of the columns, whatever the file holds.
#![tactic(auto)]

mod carrier;
mod laws;
mod reading;
mod row_fault;
mod source;
mod value;

pub use avro_container::Container;
pub use carrier::{carries, is_null_type};
pub use laws::{columns_are_read_each_for_itself, rows_are_of_their_columns};
pub use reading::{read_rows, values_of};
pub use row_fault::RowFault;
pub use row_values::{Column, Kind, List, Row, TableSchema, Value};
pub use source::{fields_of, has_id};
pub use value::{inside, is_null_datum, value_of};
