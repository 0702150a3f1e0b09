//! The kinds, values, rows and schemas of a table, and the order of values.
//!
//! A value is of its kind by its form alone, and values of one kind are compared as SQL compares them; values of different
//! kinds have no order.
#![tactic(auto)]

mod kind;
mod order;
mod partition;
mod row;
mod schema;
mod value;

pub use kind::Kind;
pub use partition::{PartField, Spec, Transform};
pub use plain_types::{Bytes, List, Text};
pub use row::copy_row;
pub use schema::{Column, TableSchema, has_id, has_name, kind_of_column};
pub use value::{Row, Value};
