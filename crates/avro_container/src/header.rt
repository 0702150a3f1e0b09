//! The header of a container.

ghost use Rattle.std.specs.Prelude.{◌≡◌, length, take, codes};
ghost use Rattle.std.specs.Str.{bytes_eq};
ghost use Rattle.avro_binary.specs.SchemaText.{schema_from};
ghost use Rattle.plain_types.specs.Answers.{Answers};
ghost use Rattle.avro_container.specs.Header.{magic, schema_in, schema_by, header_from, header_of};

use crate::fault::ContainerFault;
use crate::pairs::{MetaPair, map_at, others, stopped, value_of};
use avro_binary::{Schema, SchemaFault, front_at, read_schema};
use plain_types::{Bytes as Blob, List};
use std::alloc::Global;

/// What stands before the blocks of a container.
#[derive(Debug, Drop)]
pub struct Header {
    pub schema: Schema,
    /// The pairs of the metadata other than the schema and the codec, in order.
    pub meta: List<MetaPair>,
    /// The 16 bytes that end each block.
    pub sync: Blob,
}

fn schema_of(alloc: Global, text: &[u8]) -> Result<Schema, ContainerFault>
    ensures { Answers ContainerFault.Memory (λ x. x) result (schema_in (schema_from text.now)) }
{
    match read_schema(alloc, text) {
        Ok(schema) => Ok(schema),
        Err(SchemaFault::Memory) => Err(ContainerFault::Memory),
        Err(f) => Err(ContainerFault::Schema(f)),
    }
}

fn is_null(name: &[u8]) -> bool
    ensures { result ≡ bytes_eq name.now (codes "null") }
{
    name == b"null".as_slice()
}

#[tactic(auto, unfolding(crate::specs::Header::schema_by))]
fn schema_by(alloc: Global, pairs: &[MetaPair]) -> Result<Schema, ContainerFault>
    ensures { Answers ContainerFault.Memory (λ x. x) result (schema_by pairs.now) }
{
    let Some(text) = value_of(b"avro.schema", pairs) else {
        return Err(ContainerFault::NoSchema);
    };
    if let Some(name) = value_of(b"avro.codec", pairs) {
        if !is_null(name) {
            return Err(ContainerFault::Codec(Blob::copy_of(alloc, name)?));
        }
    }
    schema_of(alloc, text)
}

#[tactic(auto, unfolding(crate::specs::Header::header_from))]
fn header_from(alloc: Global, whole: usize, bytes: &[u8]) -> Result<(Header, &[u8]), ContainerFault>
    ensures { Answers ContainerFault.Memory (λ x. (x.0, x.1.now)) result (header_from whole bytes.now) }
{
    let (pairs, rest) = map_at(alloc, whole, bytes)?;
    let (sync, rest) = match front_at(16, rest) {
        Ok(found) => found,
        Err(stop) => return Err(stopped(whole, stop)),
    };
    let schema = schema_by(alloc, pairs.as_slice())?;
    let meta = List::from_vec(others(alloc, pairs.as_slice())?);
    let sync = Blob::copy_of(alloc, sync)?;
    Ok((Header { schema, meta, sync }, rest))
}

fn is_container(bytes: &[u8]) -> bool
    ensures { result ≡ bytes_eq (take 4 bytes.now) magic }
{
    if bytes.len() < 4 {
        bytes == b"Obj\x01".as_slice()
    } else {
        &bytes[..4] == b"Obj\x01".as_slice()
    }
}

/// The header of a container, and the blocks after it.
#[tactic(auto, unfolding(crate::specs::Header::header_of))]
pub fn read_header(alloc: Global, bytes: &[u8]) -> Result<(Header, &[u8]), ContainerFault>
    ensures { Answers ContainerFault.Memory (λ x. (x.0, x.1.now)) result (header_of bytes.now) }
{
    if is_container(bytes) {
        header_from(alloc, bytes.len(), &bytes[4..])
    } else {
        Err(ContainerFault::Magic)
    }
}
