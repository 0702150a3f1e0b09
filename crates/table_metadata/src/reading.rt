//! Reads a metadata file.
ghost use Rattle.std.specs.Prelude.{◌≡◌, ◌≢◌, IfOk, IfErr, Ok, Err};
ghost use Rattle.plain_types.specs.Answers.{Answers};
ghost use Rattle.serde_json.specs.View.{view};
ghost use Rattle.table_metadata.specs.Coherent.{IsCoherent};
ghost use Rattle.table_metadata.specs.Metadata.{IsMetadataOf, metadata_of, json_of, whole_object, parts_of, parts};

use crate::field_ids::field_ids_fit;
use crate::floats::has_float;
use crate::missing_keys::keys_stand;
use crate::properties::read_properties;
use crate::references::{check_refs, read_listed_refs};
use crate::schema_list::{read_schemas, read_specs};
use crate::snapshots::read_snapshots;
use crate::table_keys::{read_current_ids, read_optional_keys, read_plain_keys};
use crate::{Metadata, MetadataFault};
use serde_json::Value;
use std::alloc::Global;

/// Reads a metadata file, or tells its first fault, class by class in the order of `MetadataFault`: a later class is only
/// looked at where the whole file is free of the earlier ones. What schemas and specs say together is tested after `Spec`.
#[tactic(auto, unfolding(crate::specs::Metadata::metadata_of))]
pub fn read_metadata(alloc: Global, bytes: &[u8]) -> Result<Metadata, MetadataFault>
    ensures ok { IfOk result (λ m. IsMetadataOf bytes.now m) }
    ensures coherent { IfOk result (λ m. IsCoherent (parts m)) }
    ensures err { IfErr result (λ f. f ≢ MetadataFault.Memory → metadata_of bytes.now ≡ Err f) }
{
    let json = read_json(alloc, bytes)?;
    read_parts(alloc, json)
}

/// The JSON object that the bytes are, in which each number is a whole number of 64 bits. Any other text is the fault `Json`.
#[tactic(auto, unfolding(crate::specs::Metadata::json_of))]
pub fn read_json(alloc: Global, bytes: &[u8]) -> Result<Value, MetadataFault>
    ensures answers { Answers MetadataFault.Memory (λ json. view json) result (json_of bytes.now) }
{
    match Value::from_slice(alloc, bytes) {
        Ok(json) => whole_object(json),
        Err(fault) => {
            if fault.is_memory() {
                Err(MetadataFault::Memory)
            } else {
                Err(MetadataFault::Json)
            }
        }
    }
}

/// The value, where it is an object in which each number is a whole number of 64 bits.
#[tactic(auto, unfolding(crate::specs::Metadata::whole_object))]
fn whole_object(json: Value) -> Result<Value, MetadataFault>
    ensures ok { IfOk result (λ v. whole_object (view json) ≡ Ok (view v)) }
    ensures err { IfErr result (λ f. whole_object (view json) ≡ Err f) }
{
    if !json.is_object() {
        return Err(MetadataFault::Json);
    }
    if has_float(&json) {
        return Err(MetadataFault::Json);
    }
    Ok(json)
}

#[tactic(auto, unfolding(crate::specs::Metadata::parts_of))]
fn read_parts(alloc: Global, json: Value) -> Result<Metadata, MetadataFault>
    ensures answers { Answers MetadataFault.Memory (λ m. parts m) result (parts_of (view json)) }
    ensures kept { IfOk result (λ m. m.json ≡ json) }
{
    keys_stand(alloc, &json)?;
    let keys = read_plain_keys(alloc, &json)?;
    let ids = read_current_ids(alloc, &json)?;
    let current = read_optional_keys(alloc, &json)?;
    let snapshots = read_snapshots(alloc, &json)?;
    let listed = read_listed_refs(alloc, &json)?;
    let schemas = read_schemas(alloc, &json)?;
    let specs = read_specs(alloc, ids.schema, schemas.as_slice(), &json)?;
    field_ids_fit(
        alloc,
        keys.last_column,
        ids.last_partition,
        schemas.as_slice(),
        specs.as_slice(),
    )?;
    let properties = read_properties(alloc, &json)?;
    let refs = check_refs(alloc, current, snapshots.as_slice(), listed)?;
    Ok(Metadata {
        format_version: 2,
        location: keys.location,
        last_sequence: keys.last_sequence,
        last_updated_ms: keys.last_updated_ms,
        last_column: keys.last_column,
        schemas,
        current_schema: ids.schema,
        specs,
        default_spec: ids.spec,
        last_partition: ids.last_partition,
        properties,
        current_snapshot: current,
        snapshots,
        refs,
        json,
    })
}
