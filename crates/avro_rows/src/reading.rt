//! The rows of a container.
ghost use Rattle.std.specs.Prelude.{◌≡◌, [], IfOk};
ghost use Rattle.plain_types.specs.Answers.{Answers};
ghost use Rattle.row_values.specs.Rows.{AreRows};
ghost use Rattle.avro_rows.specs.Rows.{values_of, null_at, held_at, value_at, row_from, rows_from, rows_of};

use crate::RowFault;
use crate::source::{Source, fields_of, sources_of};
use crate::value::{inside, is_null_datum, value_of};
use avro_binary::Datum;
use avro_container::Container;
use row_values::{List, Row, TableSchema, Value};
use std::alloc::Global;

/// The values of a record's fields, of which a datum of another type has none.
pub fn values_of(datum: &Datum) -> &[Datum]
    ensures { result.now ≡ values_of datum.now }
{
    match datum {
        Datum::Record(values) => values.as_slice(),
        _ => &[],
    }
}

/// NULL in a row of this number.
fn null_at(source: &Source, row: u64) -> Result<Value, RowFault>
    ensures { result ≡ null_at source.now row }
{
    if source.required {
        Err(RowFault::Null(source.id, row))
    } else {
        Ok(Value::Null)
    }
}

/// The value of a datum that is in no union.
fn held_at(alloc: Global, source: &Source, row: u64, datum: &Datum) -> Result<Value, RowFault>
    ensures answers { Answers RowFault.Memory (λ v. v) result (held_at source.now row datum.now) }
{
    if is_null_datum(datum) {
        return null_at(source, row);
    }
    match value_of(alloc, source.kind, datum)? {
        Some(value) => Ok(value),
        None => Err(RowFault::Range(source.id, row)),
    }
}

/// The column's value in a row of this number, whose record has these values.
fn value_at(alloc: Global, source: &Source, row: u64, values: &[Datum]) -> Result<Value, RowFault>
    ensures answers { Answers RowFault.Memory (λ v. v) result (value_at source.now row values.now) }
{
    let Some(place) = source.place else {
        return null_at(source, row);
    };
    match values.get(place) {
        Some(datum) => held_at(alloc, source, row, inside(datum)),
        None => null_at(source, row),
    }
}

/// The row of this number, whose record has these values, or its first column's fault.
#[tactic(auto, unfolding(crate::specs::Rows::row_from))]
fn read_row(alloc: Global, sources: &[Source], row: u64, values: &[Datum]) -> Result<Row, RowFault>
    ensures answers { Answers RowFault.Memory (λ vs. vs) result (row_from row values.now [] sources.now) }
{
    let mut read = Vec::with_capacity(alloc, sources.len())?;
    let mut rest = sources;
    while let [source, after @ ..] = rest {
        let value = value_at(alloc, source, row, values)?;
        read.push(value)?;
        rest = after;
    }
    Ok(List::from_vec(read))
}

/// The rows of the records, or the first fault.
#[tactic(auto, unfolding(crate::specs::Rows::rows_from))]
fn read_records(alloc: Global, sources: &[Source], records: &[Datum]) -> Result<List<Row>, RowFault>
    ensures answers { Answers RowFault.Memory (λ rows. rows) result (rows_from sources.now [] records.now) }
{
    let mut rows = Vec::with_capacity(alloc, records.len())?;
    let mut rest = records;
    while let [record_datum, after @ ..] = rest {
        let row = read_row(alloc, sources, rows.len() as u64, values_of(record_datum))?;
        rows.push(row)?;
        rest = after;
    }
    Ok(List::from_vec(rows))
}

/// Reads the rows of the container in the columns of the schema. A fault of the file's schema comes first, by the
/// order of the columns, then that of the first row that has one, in it of the first column.
#[tactic(auto, unfolding(crate::specs::Rows::rows_of))]
pub fn read_rows(
    alloc: Global,
    container: &Container,
    schema: &TableSchema,
) -> Result<List<Row>, RowFault>
    ensures answers { Answers RowFault.Memory (λ rows. rows) result (rows_of container.now schema.now.columns) }
    ensures rows { IfOk result (λ rows. AreRows schema.now.columns rows) }
{
    let sources = sources_of(
        alloc,
        fields_of(&container.schema),
        schema.columns.as_slice(),
    )?;
    read_records(alloc, sources.as_slice(), container.datums.as_slice())
}
