//! Rows as datums.
ghost use Rattle.std.specs.Prelude.{◌≡◌, IfOk, map};
ghost use Rattle.row_writer.specs.RowDatum.{column_datum, column_datums, row_datum, row_size};

use crate::datums::{null_branch, value_branch, value_datum};
use avro_binary::{Datum, Items, put_each};
use row_values::{Column, Row, TableSchema, Value};
use std::alloc::{AllocError, Global};

fn column_datum(alloc: Global, column: &Column, value: &Value) -> Result<Datum, AllocError>
    ensures { IfOk result (λ d. d ≡ column_datum column.now value.now) }
{
    if column.required {
        return value_datum(alloc, column.kind, value);
    }
    match value {
        Value::Null => null_branch(alloc),
        _ => value_branch(alloc, value_datum(alloc, column.kind, value)?),
    }
}

/// The values of the record's fields.
#[tactic(auto, unfolding(crate::specs::RowDatum::column_datums))]
fn column_datums(
    alloc: Global,
    columns: &[Column],
    values: &[Value],
) -> Result<Vec<Datum>, AllocError>
    ensures { IfOk result (λ ds. ds.items ≡ column_datums columns.now values.now) }
{
    let mut datums = Vec::with_capacity(alloc, columns.len())?;
    let mut rest = columns;
    let mut left = values;
    while let [column, after @ ..] = rest {
        let [value, more @ ..] = left else {
            return Ok(datums);
        };
        datums.push(column_datum(alloc, column, value)?)?;
        rest = after;
        left = more;
    }
    Ok(datums)
}

fn row_datum(alloc: Global, columns: &[Column], row: &[Value]) -> Result<Datum, AllocError>
    ensures { IfOk result (λ d. d ≡ row_datum columns.now row.now) }
{
    let datums = column_datums(alloc, columns, row)?;
    Ok(Datum::Record(Items::from_vec(datums)))
}

/// How many bytes the row takes among the rows of a file.
pub fn row_size(alloc: Global, schema: &TableSchema, row: &[Value]) -> Result<usize, AllocError>
    ensures { IfOk result (λ size. size ≡ row_size schema.now.columns row.now) }
{
    let datums = [row_datum(alloc, schema.columns.as_slice(), row)?];
    let mut bytes = Vec::new(alloc);
    put_each(datums.as_slice(), &mut bytes)?;
    Ok(bytes.len())
}

pub(crate) fn row_datums(
    alloc: Global,
    columns: &[Column],
    rows: &[Row],
) -> Result<Vec<Datum>, AllocError>
    ensures { IfOk result (λ ds. ds.items ≡ map (row_datum columns.now) rows.now) }
{
    let mut datums = Vec::with_capacity(alloc, rows.len())?;
    for row in rows {
        datums.push(row_datum(alloc, columns, row.as_slice())?)?;
    }
    Ok(datums)
}
