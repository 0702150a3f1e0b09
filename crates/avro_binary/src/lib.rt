//! Avro's binary encoding: reads a schema from JSON and datums of a schema from bytes, and writes both.
//!
//! What is read is exactly what the grammar of the encoding has, and a fault is the first one from left to
//! right, at its place. A reader of a part answers the bytes after it, or a fault with how many bytes are
//! left where it begins; so parts put together need no place, and it is reckoned once, at the top.
#![tactic(auto)]

mod copies;
mod datum;
mod fault;
mod keys;
mod leaf;
mod named_types;
mod names;
mod number;
mod placed;
mod read;
mod reading;
mod schema;
mod schema_data;
mod schema_fault;
mod schema_reader;
mod schema_text;
mod schema_writer;
mod word;
mod writing;
mod writing_laws;
mod writing_leaf;

pub use datum::{Datum, MapPair};
pub use fault::{DatumFault, FaultKind, Spot, Stop};
pub use number::{bytes_at, count_at, front_at, length_at, long_at, text_at};
pub use plain_types::{Boxed, Bytes as Octets, Items};
pub use read::{fault_of, one_answer, read_datum};
pub use reading::{datum_at, datums_at};
pub use schema::{Field, Logical, Schema};
pub use schema_fault::SchemaFault;
pub use schema_reader::read_schema;
pub use schema_writer::write_schema;
pub use writing::{put_datum, put_each};
pub use writing_laws::{
    numbers_are_spelled_shortest, the_text_of_a_schema_is_read, what_is_read_fits,
    what_is_written_is_read,
};
pub use writing_leaf::{put_bytes, put_counted, put_natural};
