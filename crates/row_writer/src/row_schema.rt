//! The type of the rows.
ghost use Rattle.std.specs.Prelude.{◌≡◌, IfOk};
ghost use Rattle.row_writer.specs.RowTypes.{value_type, column_type, column_field, column_fields, row_type};

use crate::column_names::{are_names, column_name};
use crate::fields::{optional_type, record_type};
use crate::kinds::kind_type;
use crate::names::decimal_name;
use avro_binary::{Field, Schema};
use row_values::Column;
use std::alloc::{AllocError, Global};

fn value_type(alloc: Global, column: &Column) -> Result<Schema, AllocError>
    ensures { IfOk result (λ s. s ≡ value_type column.now) }
{
    let name = decimal_name(alloc, column.id)?;
    kind_type(alloc, name.as_bytes(), column.kind)
}

fn column_type(alloc: Global, column: &Column) -> Result<Schema, AllocError>
    ensures { IfOk result (λ s. s ≡ column_type column.now) }
{
    let schema = value_type(alloc, column)?;
    if column.required {
        Ok(schema)
    } else {
        optional_type(alloc, schema)
    }
}

fn column_field(alloc: Global, keeps: bool, column: &Column) -> Result<Field, AllocError>
    ensures { IfOk result (λ f. f ≡ column_field keeps column.now) }
{
    let name = column_name(alloc, keeps, column)?;
    let schema = column_type(alloc, column)?;
    Ok(Field {
        name,
        id: Some(column.id),
        schema,
    })
}

fn column_fields(alloc: Global, columns: &[Column]) -> Result<Vec<Field>, AllocError>
    ensures { IfOk result (λ fields. fields.items ≡ column_fields columns.now) }
{
    let keeps = are_names(columns);
    let mut fields = Vec::new(alloc);
    for column in columns {
        fields.push(column_field(alloc, keeps, column)?)?;
    }
    Ok(fields)
}

/// A record with a field for each column.
pub(crate) fn row_type(alloc: Global, columns: &[Column]) -> Result<Schema, AllocError>
    ensures { IfOk result (λ s. s ≡ row_type columns.now) }
{
    record_type(alloc, b"table", column_fields(alloc, columns)?)
}
