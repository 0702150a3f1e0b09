//! The bytes of a data file.
ghost use Rattle.std.specs.Prelude.{◌≡◌, IfOk};
ghost use Rattle.row_values.specs.Rows.{AreRows};
ghost use Rattle.row_writer.specs.RowsText.{rows_text};

use crate::row_datum::row_datums;
use crate::row_schema::row_type;
use avro_container::{Container, write_container};
use plain_types::{Bytes, List};
use row_values::{Row, TableSchema};
use std::alloc::{AllocError, Global};

/// The bytes of the data file of these rows, which are rows of the schema's columns: `are_rows` tells.
pub fn write_rows(alloc: Global, schema: &TableSchema, rows: &[Row]) -> Result<Bytes, AllocError>
    requires { AreRows schema.now.columns rows.now }
    ensures { IfOk result (λ bytes. bytes ≡ rows_text schema.now.columns rows.now) }
{
    let columns = schema.columns.as_slice();
    let datums = row_datums(alloc, columns, rows)?;
    let container = Container {
        schema: row_type(alloc, columns)?,
        meta: List::from_vec(Vec::new(alloc)),
        datums: List::from_vec(datums),
    };
    write_container(alloc, &container)
}
