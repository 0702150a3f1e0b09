ghost use Rattle.std.specs.Prelude.{◌≡◌};
ghost use Rattle.row_values.specs.Columns.{has_id, has_name, kind_of_column};

use crate::Kind;
use plain_types::{List, Text};

/// A column, known by its field id (Iceberg specification, "Schemas and Data Types").
#[derive(Debug, PartialEq, Drop)]
pub struct Column {
    pub id: i32,
    pub name: Text,
    pub kind: Kind,
    /// A required column holds no NULL.
    pub required: bool,
}

/// The columns of a table, under the id of the schema.
#[derive(Debug, PartialEq, Drop)]
pub struct TableSchema {
    pub id: i32,
    pub columns: List<Column>,
}

/// Whether a column has the id.
pub fn has_id(id: i32, columns: &[Column]) -> bool
    ensures { result ≡ has_id id columns.now }
{
    columns.iter().any(|column| column.id == id)
}

/// Whether a column has the name.
pub fn has_name(name: &str, columns: &[Column]) -> bool
    ensures { result ≡ has_name name.now columns.now }
{
    columns.iter().any(|column| column.name.as_str() == name)
}

/// The kind of the column with the id.
#[tactic(auto, unfolding(crate::specs::Columns::kind_of_column))]
pub fn kind_of_column(id: i32, columns: &[Column]) -> Option<Kind>
    ensures { result ≡ kind_of_column id columns.now }
{
    let mut rest = columns;
    while let [column, after @ ..] = rest {
        if column.id == id {
            return Some(column.kind);
        }
        rest = after;
    }
    None
}
