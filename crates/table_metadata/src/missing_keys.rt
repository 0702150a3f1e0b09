//! Whether each needed key stands, and the format version is 2.
ghost use Rattle.std.specs.Prelude.{◌≡◌};
ghost use Rattle.plain_types.specs.Answers.{Answers};
ghost use Rattle.serde_json.specs.View.{view, items_view, members_view};
ghost use Rattle.table_metadata.specs.MissingKeys.{
  needs,
  version_fits,
  table_keys_stand,
  snapshot_keys_stand,
  snapshots_stand,
  ref_keys_stand,
  refs_stand,
  listed_snapshots_stand,
  listed_refs_stand,
  keys_stand,
};

use crate::MetadataFault;
use crate::table_keys::version_of;
use iceberg_schema::{items_at, members_at};
use row_values::Text;
use serde_json::{Map, Value};
use std::alloc::Global;

/// The first needed key that is absent, the version's before all others, or a version that is not 2.
#[tactic(auto, unfolding(crate::specs::MissingKeys::keys_stand))]
pub(crate) fn keys_stand(alloc: Global, json: &Value) -> Result<(), MetadataFault>
    ensures answers { Answers MetadataFault.Memory (λ x. x) result (keys_stand (view json.now)) }
{
    needs(alloc, json, "format-version")?;
    version_fits(json)?;
    table_keys_stand(alloc, json)?;
    listed_snapshots_stand(alloc, json)?;
    listed_refs_stand(alloc, json)
}

fn needs(alloc: Global, json: &Value, key: &str) -> Result<(), MetadataFault>
    ensures answers { Answers MetadataFault.Memory (λ x. x) result (needs key.now (view json.now)) }
{
    match json.get(key) {
        Some(_) => Ok(()),
        None => Err(MetadataFault::Missing(Text::copy_of(alloc, key)?)),
    }
}

#[tactic(auto, unfolding(crate::specs::MissingKeys::version_fits))]
fn version_fits(json: &Value) -> Result<(), MetadataFault>
    ensures { result ≡ version_fits (view json.now) }
{
    match version_of(json) {
        Some(version) => {
            if version == 2 {
                Ok(())
            } else {
                Err(MetadataFault::Version(version))
            }
        }
        None => Ok(()),
    }
}

#[tactic(auto, unfolding(crate::specs::MissingKeys::table_keys_stand))]
fn table_keys_stand(alloc: Global, json: &Value) -> Result<(), MetadataFault>
    ensures answers { Answers MetadataFault.Memory (λ x. x) result (table_keys_stand (view json.now)) }
{
    needs(alloc, json, "table-uuid")?;
    needs(alloc, json, "location")?;
    needs(alloc, json, "last-sequence-number")?;
    needs(alloc, json, "last-updated-ms")?;
    needs(alloc, json, "last-column-id")?;
    needs(alloc, json, "schemas")?;
    needs(alloc, json, "current-schema-id")?;
    needs(alloc, json, "partition-specs")?;
    needs(alloc, json, "default-spec-id")?;
    needs(alloc, json, "last-partition-id")
}

#[tactic(auto, unfolding(crate::specs::MissingKeys::listed_snapshots_stand))]
fn listed_snapshots_stand(alloc: Global, json: &Value) -> Result<(), MetadataFault>
    ensures answers { Answers MetadataFault.Memory (λ x. x) result (listed_snapshots_stand (view json.now)) }
{
    match items_at(json, "snapshots") {
        Some(snapshots) => snapshots_stand(alloc, snapshots),
        None => Ok(()),
    }
}

#[tactic(auto, unfolding(crate::specs::MissingKeys::snapshots_stand))]
fn snapshots_stand(alloc: Global, snapshots: &[Value]) -> Result<(), MetadataFault>
    ensures answers { Answers MetadataFault.Memory (λ x. x) result (snapshots_stand (items_view snapshots.now)) }
{
    let mut rest = snapshots;
    while let [first, after @ ..] = rest {
        snapshot_keys_stand(alloc, first)?;
        rest = after;
    }
    Ok(())
}

#[tactic(auto, unfolding(crate::specs::MissingKeys::snapshot_keys_stand))]
fn snapshot_keys_stand(alloc: Global, json: &Value) -> Result<(), MetadataFault>
    ensures answers { Answers MetadataFault.Memory (λ x. x) result (snapshot_keys_stand (view json.now)) }
{
    if !json.is_object() {
        return Ok(());
    }
    needs(alloc, json, "snapshot-id")?;
    needs(alloc, json, "sequence-number")?;
    needs(alloc, json, "timestamp-ms")?;
    needs(alloc, json, "manifest-list")
}

#[tactic(auto, unfolding(crate::specs::MissingKeys::listed_refs_stand))]
fn listed_refs_stand(alloc: Global, json: &Value) -> Result<(), MetadataFault>
    ensures answers { Answers MetadataFault.Memory (λ x. x) result (listed_refs_stand (view json.now)) }
{
    match members_at(json, "refs") {
        Some(refs) => refs_stand(alloc, refs),
        None => Ok(()),
    }
}

#[tactic(auto, unfolding(crate::specs::MissingKeys::refs_stand))]
fn refs_stand(alloc: Global, refs: &Map<String, Value>) -> Result<(), MetadataFault>
    ensures answers { Answers MetadataFault.Memory (λ x. x) result (refs_stand (members_view refs.now.entries)) }
{
    for (_, reference) in refs.iter() {
        ref_keys_stand(alloc, reference)?;
    }
    Ok(())
}

#[tactic(auto, unfolding(crate::specs::MissingKeys::ref_keys_stand))]
fn ref_keys_stand(alloc: Global, json: &Value) -> Result<(), MetadataFault>
    ensures answers { Answers MetadataFault.Memory (λ x. x) result (ref_keys_stand (view json.now)) }
{
    if !json.is_object() {
        return Ok(());
    }
    needs(alloc, json, "snapshot-id")?;
    needs(alloc, json, "type")
}
