//! The kinds of partition values.
ghost use Rattle.std.specs.Prelude.{◌≡◌};
ghost use Rattle.row_values.specs.Columns.{kind_of_column};
ghost use Rattle.manifest_files.specs.PartitionKinds.{kind_given, kind_of_field, carries_part};

use avro_binary::Schema;
use avro_rows::carries;
use row_values::{Column, Kind, PartField, Transform, kind_of_column};

/// The kind of the values that a transform gives of values of a kind.
fn kind_given(transform: Transform, kind: Kind) -> Option<Kind>
    ensures { result ≡ kind_given transform kind }
{
    match transform {
        Transform::Identity | Transform::Truncate(_) => Some(kind),
        Transform::Bucket(_) | Transform::Year | Transform::Month | Transform::Hour => {
            Some(Kind::Int)
        }
        Transform::Day => Some(Kind::Date),
        Transform::Void => None,
    }
}

/// The kind of a partition field's values.
pub fn kind_of_field(columns: &[Column], part: &PartField) -> Option<Kind>
    ensures { result ≡ kind_of_field columns.now part.now }
{
    let kind = kind_of_column(part.source, columns)?;
    kind_given(part.transform, kind)
}

/// Whether an Avro type carries the values, of which no kind means NULL alone.
pub(crate) fn carries_part(kind: Option<Kind>, schema: &Schema) -> bool
    ensures { result ≡ carries_part kind schema.now }
{
    match kind {
        Some(given) => carries(given, schema),
        None => true,
    }
}
