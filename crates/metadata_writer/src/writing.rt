//! The text of a table's metadata.
ghost use Rattle.std.specs.Prelude.{◌≡◌, ℕ, List, false, IfOk, Ok};
ghost use Rattle.serde_json.specs.View.{view};
ghost use Rattle.serde_json.specs.Written.{has_float, compact_text};
ghost use Rattle.table_metadata.specs.Metadata.{IsMetadataOf, json_of};
ghost use Rattle.metadata_writer.specs.Writable.{IsWritable};

use plain_types::Bytes;
use serde_json::Value;
use std::alloc::{AllocError, Global};
use table_metadata::Metadata;

/// Compact JSON.
pub fn text(alloc: Global, json: &Value) -> Result<Bytes, AllocError>
    ensures exact { IfOk result (λ text. has_float (view json.now) ≡ false → text ≡ compact_text (view json.now)) }
    ensures reads_back { IfOk result (λ text. IsWritable (view json.now) → json_of text ≡ Ok (view json.now)) }
{
    Ok(Bytes::from_vec(json.to_vec(alloc)?))
}

/// The text of metadata, from which the same is read.
pub fn metadata_text(alloc: Global, metadata: &Metadata) -> Result<Bytes, AllocError>
    ensures exact { IfOk result (λ text. has_float (view metadata.now.json) ≡ false → text ≡ compact_text (view metadata.now.json)) }
    ensures reads_back { IfOk result (λ text. (bytes : List ℕ) → IsMetadataOf bytes metadata.now → IsMetadataOf text metadata.now) }
{
    text(alloc, &metadata.json)
}
