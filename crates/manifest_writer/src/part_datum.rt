//! A partition's values as datums.
ghost use Rattle.std.specs.Prelude.{◌≡◌, IfOk};
ghost use Rattle.manifest_writer.specs.PartDatum.{part_datum, part_datums};

use avro_binary::Datum;
use kind_values::is_value;
use manifest_files::kind_of_field;
use row_values::{Column, Kind, PartField, Value};
use row_writer::{null_branch, value_branch, value_datum};
use std::alloc::{AllocError, Global};

/// A value of the kind, else null.
fn part_datum(alloc: Global, kind: Option<Kind>, value: &Value) -> Result<Datum, AllocError>
    ensures { IfOk result (λ d. d ≡ part_datum kind value.now) }
{
    match kind {
        None => null_branch(alloc),
        Some(kind) => {
            if is_value(kind, value) {
                value_branch(alloc, value_datum(alloc, kind, value)?)
            } else {
                null_branch(alloc)
            }
        }
    }
}

/// A value for each field, which is null where there are too few.
#[tactic(auto, unfolding(crate::specs::PartDatum::part_datums))]
pub(crate) fn part_datums(
    alloc: Global,
    columns: &[Column],
    parts: &[PartField],
    values: &[Value],
) -> Result<Vec<Datum>, AllocError>
    ensures { IfOk result (λ ds. ds.items ≡ part_datums columns.now parts.now values.now) }
{
    let mut datums = Vec::new(alloc);
    let mut rest = parts;
    let mut left = values;
    while let [part, after @ ..] = rest {
        match left {
            [] => datums.push(null_branch(alloc)?)?,
            [value, more @ ..] => {
                datums.push(part_datum(alloc, kind_of_field(columns, part), value)?)?;
                left = more;
            }
        }
        rest = after;
    }
    Ok(datums)
}
