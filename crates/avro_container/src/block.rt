//! The blocks of a container, one at a time.

ghost use Rattle.std.specs.Prelude.{◌≡◌, length, take, drop};
ghost use Rattle.std.specs.Str.{bytes_eq};
ghost use Rattle.avro_binary.specs.Shape.{shape};
ghost use Rattle.avro_container.specs.Answer.{block_stopped};
ghost use Rattle.plain_types.specs.Answers.{Answers};
ghost use Rattle.avro_container.specs.Block.{Stored as Told, counted, data_at, datums_of, block_at};

use crate::fault::{ContainerFault, block_fault};
use avro_binary::{Datum, Schema, Stop, datums_at, fault_of, front_at, length_at, long_at};
use std::alloc::Global;

/// A block's count and data.
#[derive(Clone, Copy)]
struct Stored<'a> {
    count: i64,
    bytes: &'a [u8],
}

fn stopped(whole: usize, block: usize, stop: Stop) -> ContainerFault
    ensures { result ≡ block_stopped whole block stop }
{
    match stop {
        Stop::Memory => ContainerFault::Memory,
        Stop::At(spot) => block_fault(whole, block, spot),
    }
}

#[tactic(auto, unfolding(crate::specs::Block::data_at))]
fn data_at(whole: usize, block: usize, bytes: &[u8]) -> Result<(Stored, &[u8]), ContainerFault>
    ensures { Answers ContainerFault.Memory (λ x. (record { count = x.0.count; bytes = x.0.bytes.now }, x.1.now)) result (data_at whole block bytes.now) }
{
    let (count, rest) = match long_at(bytes) {
        Ok(found) => found,
        Err(stop) => return Err(stopped(whole, block, stop)),
    };
    let (size, rest) = match length_at(rest) {
        Ok(found) => found,
        Err(stop) => return Err(stopped(whole, block, stop)),
    };
    match front_at(size, rest) {
        Ok((bytes, rest)) => Ok((Stored { count, bytes }, rest)),
        Err(stop) => Err(stopped(whole, block, stop)),
    }
}

fn counted(count: i64, size: usize) -> Option<u64>
    ensures { result ≡ counted count size }
{
    if 0 <= count && count as u64 <= size as u64 {
        Some(count as u64)
    } else {
        None
    }
}

/// The datums of a block's data, all of it.
fn datums_of(
    alloc: Global,
    schema: &Schema,
    block: usize,
    count: Option<u64>,
    bytes: &[u8],
) -> Result<Vec<Datum>, ContainerFault>
    ensures { Answers ContainerFault.Memory (λ x. x.items) result (datums_of (shape schema.now) block count bytes.now) }
{
    let Some(count) = count else {
        return Err(ContainerFault::Count(block));
    };
    match datums_at(alloc, schema, count, bytes) {
        Ok((datums, rest)) => {
            if rest.len() == 0 {
                Ok(datums)
            } else {
                Err(ContainerFault::Count(block))
            }
        }
        Err(Stop::Memory) => Err(ContainerFault::Memory),
        Err(Stop::At(spot)) => Err(ContainerFault::Datum(block, fault_of(bytes.len(), spot))),
    }
}

fn is_synced(bytes: &[u8], sync: &[u8]) -> bool
    ensures { result ≡ bytes_eq (take 16 bytes.now) sync.now }
{
    if bytes.len() < 16 {
        bytes == sync
    } else {
        &bytes[..16] == sync
    }
}

fn after_sync(bytes: &[u8]) -> &[u8]
    ensures { result.now ≡ drop 16 bytes.now }
{
    if bytes.len() < 16 {
        &bytes[bytes.len()..]
    } else {
        &bytes[16..]
    }
}

/// The datums of the block that begins here, and the blocks after it. `whole` is the length of the file, and `block` the
/// number of the block: they say only how faults are told.
#[tactic(auto, unfolding(crate::specs::Block::block_at))]
pub fn next_block<'a>(
    alloc: Global,
    schema: &Schema,
    sync: &[u8],
    whole: usize,
    block: usize,
    bytes: &'a [u8],
) -> Result<(Vec<Datum>, &'a [u8]), ContainerFault>
    ensures { Answers ContainerFault.Memory (λ x. (x.0.items, x.1.now)) result (block_at (shape schema.now) sync.now whole block bytes.now) }
{
    let (stored, rest) = data_at(whole, block, bytes)?;
    let count = counted(stored.count, stored.bytes.len());
    let datums = datums_of(alloc, schema, block, count, stored.bytes)?;
    if is_synced(rest, sync) {
        Ok((datums, after_sync(rest)))
    } else {
        Err(ContainerFault::Sync(block))
    }
}
