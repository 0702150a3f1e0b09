//! The table properties that say how rows are changed and how a commit is tried.
ghost use Rattle.std.specs.Prelude.{◌≡◌, ◌≢◌, option_map};
ghost use Rattle.plain_types.specs.Answers.{Answers};
ghost use Rattle.serde_json.specs.View.{view};
ghost use Rattle.table_metadata.specs.TableProperties.{table_properties_of};
ghost use Rattle.table_metadata.specs.Properties.{property_at, is_second, reads_on, is_snapshot_level, retries_of, least_to_merge_of, properties_of};

use crate::MetadataFault;
use crate::table_keys::properties_shape;
use iceberg_schema::text_at;
use plain_types::digits::whole_number;
use row_values::Text;
use serde_json::Value;
use std::alloc::Global;

const DEFAULT_RETRIES: u32 = 4;

const MAX_RETRIES: u64 = 1000;

const DEFAULT_LEAST_TO_MERGE: u64 = 100;

/// How a statement changes rows: by files of deleted positions that are merged on reading, or by new copies of the data
/// files; and what a commit is checked against, the snapshot alone or a serial order.
#[derive(Debug, PartialEq, Drop)]
pub struct WriteMode {
    pub on_read: bool,
    pub snapshot_level: bool,
}

#[derive(Debug, PartialEq, Drop)]
pub struct Properties {
    pub delete: WriteMode,
    pub update: WriteMode,
    pub merge: WriteMode,
    pub retries: u32,
    pub least_to_merge: u64,
    pub merge_enabled: bool,
}

#[tactic(auto, unfolding(crate::specs::Properties::properties_of))]
pub(crate) fn read_properties(alloc: Global, json: &Value) -> Result<Properties, MetadataFault>
    ensures answers { Answers MetadataFault.Memory (λ p. p) result (properties_of (view json.now)) }
{
    let delete = reads_on(alloc, json, "write.delete.mode")?;
    let update = reads_on(alloc, json, "write.update.mode")?;
    let merge = reads_on(alloc, json, "write.merge.mode")?;
    let delete_level = is_snapshot_level(alloc, json, "write.delete.isolation-level")?;
    let update_level = is_snapshot_level(alloc, json, "write.update.isolation-level")?;
    let merge_level = is_snapshot_level(alloc, json, "write.merge.isolation-level")?;
    let retries = read_retries(alloc, json)?;
    let least_to_merge = read_least_to_merge(alloc, json)?;
    let disabled = is_second(
        alloc,
        json,
        "commit.manifest-merge.enabled",
        "true",
        "false",
    )?;
    Ok(Properties {
        delete: WriteMode {
            on_read: delete,
            snapshot_level: delete_level,
        },
        update: WriteMode {
            on_read: update,
            snapshot_level: update_level,
        },
        merge: WriteMode {
            on_read: merge,
            snapshot_level: merge_level,
        },
        retries,
        least_to_merge,
        merge_enabled: !disabled,
    })
}

/// Reads the properties under the key `properties` of an object, where it is an object of texts.
#[tactic(auto, unfolding(crate::specs::TableProperties::table_properties_of))]
pub fn read_table_properties(alloc: Global, json: &Value) -> Result<Properties, MetadataFault>
    ensures answers { Answers MetadataFault.Memory (λ p. p) result (table_properties_of (view json.now)) }
{
    properties_shape(alloc, json)?;
    read_properties(alloc, json)
}

/// Whether a statement's mode is `merge-on-read`.
fn reads_on(alloc: Global, json: &Value, key: &str) -> Result<bool, MetadataFault>
    ensures answers { Answers MetadataFault.Memory (λ b. b) result (reads_on key.now (view json.now)) }
{
    is_second(alloc, json, key, "copy-on-write", "merge-on-read")
}

fn is_snapshot_level(alloc: Global, json: &Value, key: &str) -> Result<bool, MetadataFault>
    ensures answers { Answers MetadataFault.Memory (λ b. b) result (is_snapshot_level key.now (view json.now)) }
{
    is_second(alloc, json, key, "serializable", "snapshot")
}

/// Whether a property is the second of its two values. Where it is absent, it is the first.
fn is_second(
    alloc: Global,
    json: &Value,
    key: &str,
    first: &str,
    second: &str,
) -> Result<bool, MetadataFault>
    ensures answers { Answers MetadataFault.Memory (λ b. b) result (is_second key.now first.now second.now (view json.now)) }
{
    let Some(text) = property_at(json, key) else {
        return Ok(false);
    };
    if text == first {
        return Ok(false);
    }
    if text == second {
        return Ok(true);
    }
    Err(bad(alloc, key))
}

/// How often a commit is tried again.
#[tactic(auto, unfolding(crate::specs::Properties::retries_of))]
fn read_retries(alloc: Global, json: &Value) -> Result<u32, MetadataFault>
    ensures answers { Answers MetadataFault.Memory (λ n. n) result (retries_of (view json.now)) }
{
    let Some(text) = property_at(json, "commit.retry.num-retries") else {
        return Ok(DEFAULT_RETRIES);
    };
    let Some(number) = whole_number(text.as_bytes()) else {
        return Err(bad(alloc, "commit.retry.num-retries"));
    };
    if number <= MAX_RETRIES {
        Ok(number as u32)
    } else {
        Err(bad(alloc, "commit.retry.num-retries"))
    }
}

/// How many manifests are merged at least.
#[tactic(auto, unfolding(crate::specs::Properties::least_to_merge_of))]
fn read_least_to_merge(alloc: Global, json: &Value) -> Result<u64, MetadataFault>
    ensures answers { Answers MetadataFault.Memory (λ n. n) result (least_to_merge_of (view json.now)) }
{
    let Some(text) = property_at(json, "commit.manifest.min-count-to-merge") else {
        return Ok(DEFAULT_LEAST_TO_MERGE);
    };
    match whole_number(text.as_bytes()) {
        Some(number) => Ok(number.max(2)),
        None => Err(bad(alloc, "commit.manifest.min-count-to-merge")),
    }
}

/// The fault of a property.
fn bad(alloc: Global, key: &str) -> MetadataFault
    ensures { result ≢ MetadataFault.Memory → result ≡ MetadataFault.Property key.now }
{
    match Text::copy_of(alloc, key) {
        Ok(key) => MetadataFault::Property(key),
        Err(_) => MetadataFault::Memory,
    }
}

fn property_at<'v>(json: &'v Value, key: &str) -> Option<&'v str>
    ensures { option_map (λ s. s.now) result ≡ property_at key.now (view json.now) }
{
    match json.get("properties") {
        Some(properties) => text_at(properties, key),
        None => None,
    }
}
