//! The schemas, specs and snapshots of a table by their ids.
ghost use Rattle.std.specs.Prelude.{◌≡◌};
ghost use Rattle.std.specs.Option.{option_copied};
ghost use Rattle.table_metadata.specs.ById.{schema_with, snapshot_with, spec_with};

use crate::metadata::Metadata;
use crate::snapshots::Snapshot;
use row_values::{Spec, TableSchema};

/// The partition spec with an id.
#[tactic(auto, unfolding(crate::specs::ById::spec_with))]
pub fn spec_with(id: i32, specs: &[Spec]) -> Option<&Spec>
    ensures { option_copied result ≡ spec_with id specs.now }
{
    let mut rest = specs;
    while let [spec, after @ ..] = rest {
        if spec.id == id {
            return Some(spec);
        }
        rest = after;
    }
    None
}

/// The schema with an id.
#[tactic(auto, unfolding(crate::specs::ById::schema_with))]
pub fn schema_with(id: i32, schemas: &[TableSchema]) -> Option<&TableSchema>
    ensures { option_copied result ≡ schema_with id schemas.now }
{
    let mut rest = schemas;
    while let [schema, after @ ..] = rest {
        if schema.id == id {
            return Some(schema);
        }
        rest = after;
    }
    None
}

/// The schema that new rows have, where it is among the table's schemas.
pub fn current_schema(metadata: &Metadata) -> Option<&TableSchema>
    ensures { option_copied result ≡ schema_with metadata.now.current_schema metadata.now.schemas }
{
    schema_with(metadata.current_schema, metadata.schemas.as_slice())
}

/// The snapshot with an id.
#[tactic(auto, unfolding(crate::specs::ById::snapshot_with))]
pub fn snapshot_with(id: i64, snapshots: &[Snapshot]) -> Option<&Snapshot>
    ensures { option_copied result ≡ snapshot_with id snapshots.now }
{
    let mut rest = snapshots;
    while let [snapshot, after @ ..] = rest {
        if snapshot.id == id {
            return Some(snapshot);
        }
        rest = after;
    }
    None
}
