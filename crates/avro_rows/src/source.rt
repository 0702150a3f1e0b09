//! Where the values of the columns stand in a record.
ghost use Rattle.std.specs.Prelude.{◌≡◌, [], length, ◌+◌};
ghost use Rattle.plain_types.specs.Answers.{Answers};
ghost use Rattle.avro_rows.specs.Sources.{has_id, carried, absent, source_from, sources_from, fields_of};

use crate::RowFault;
use crate::carrier::carries;
use avro_binary::{Field, Schema};
use row_values::{Column, Kind};
use std::alloc::Global;

/// A column of a file, and where in each record its value stands: nowhere where the file lacks the column.
#[derive(Debug, Drop)]
pub struct Source {
    pub id: i32,
    pub kind: Kind,
    pub required: bool,
    pub place: Option<usize>,
}

pub fn has_id(id: i32, field: &Field) -> bool
    ensures { result ≡ has_id id field.now }
{
    match field.id {
        Some(other) => other == id,
        None => false,
    }
}

/// The source of a column whose field stands there.
fn carried(column: &Column, place: usize, field: &Field) -> Result<Source, RowFault>
    ensures { result ≡ carried column.now place field.now }
{
    if carries(column.kind, &field.schema) {
        Ok(Source {
            id: column.id,
            kind: column.kind,
            required: column.required,
            place: Some(place),
        })
    } else {
        Err(RowFault::Kind(column.id))
    }
}

/// The source of a column that no field has.
fn absent(column: &Column) -> Result<Source, RowFault>
    ensures { result ≡ absent column.now }
{
    if column.required {
        Err(RowFault::NoColumn(column.id))
    } else {
        Ok(Source {
            id: column.id,
            kind: column.kind,
            required: column.required,
            place: None,
        })
    }
}

/// The source of the column, which is the first field that has its id.
#[tactic(auto, unfolding(crate::specs::Sources::source_from))]
fn source_of(fields: &[Field], column: &Column) -> Result<Source, RowFault>
    ensures { result ≡ source_from column.now 0 fields.now }
{
    let mut place = 0;
    let mut rest = fields;
    while let [field, after @ ..] = rest {
        if has_id(column.id, field) {
            return carried(column, place, field);
        }
        place += 1;
        rest = after;
    }
    absent(column)
}

/// The sources of the columns, or the first column's fault.
#[tactic(auto, unfolding(crate::specs::Sources::sources_from))]
pub(crate) fn sources_of(
    alloc: Global,
    fields: &[Field],
    columns: &[Column],
) -> Result<Vec<Source>, RowFault>
    ensures answers { Answers RowFault.Memory (λ sources. sources.items) result (sources_from fields.now [] columns.now) }
{
    let mut sources = Vec::new(alloc);
    let mut rest = columns;
    while let [column, after @ ..] = rest {
        let source = source_of(fields, column)?;
        sources.push(source)?;
        rest = after;
    }
    Ok(sources)
}

/// The fields of a record, of which a schema of another type has none.
pub fn fields_of(schema: &Schema) -> &[Field]
    ensures { result.now ≡ fields_of schema.now }
{
    match schema {
        Schema::Record { fields, .. } => fields.as_slice(),
        _ => &[],
    }
}
