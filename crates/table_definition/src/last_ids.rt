// The greatest ids of a new table.
ghost use Rattle.std.specs.Prelude.{◌≡◌};
ghost use Rattle.table_definition.specs.LastIds.{last_column, last_partition};

use row_values::{Column, PartField};

/// The greatest id of the columns.
pub(crate) fn last_column(columns: &[Column]) -> i32
    ensures { result ≡ last_column columns.now }
{
    let mut greatest = i32::MIN;
    let mut rest = columns;
    while let [column, after @ ..] = rest {
        greatest = greatest.max(column.id);
        rest = after;
    }
    greatest
}

/// The greatest id of the partition fields, and 999 where there is none above.
pub(crate) fn last_partition(fields: &[PartField]) -> i32
    ensures { result ≡ last_partition fields.now }
{
    let mut greatest = 999;
    let mut rest = fields;
    while let [field, after @ ..] = rest {
        greatest = greatest.max(field.field);
        rest = after;
    }
    greatest
}
