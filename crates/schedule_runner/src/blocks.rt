// How many datums a container has, by the counts of its blocks: the datums are not read.
ghost use Rattle.std.specs.Prelude.{◌≡◌, ◌+◌, ℕ, pos, List as Seq, length, Ok, IfOk, IfSome};
ghost use Rattle.avro_binary.specs.declared.datum.Datum.{Datum as Tree};
ghost use Rattle.avro_binary.specs.Shape.{Shape};
ghost use Rattle.avro_container.specs.declared.container.Container.{Container};
ghost use Rattle.avro_container.specs.Container.{container_of};
ghost use Rattle.avro_container.specs.Grammar.{AreBlocks, ReadsBlock};

use avro_binary::{Stop, front_at, length_at, long_at};
use avro_container::{ContainerFault, read_header};
use std::alloc::{AllocError, Global};

// The count of the block that begins here, and the blocks after it, where there are so many sync bytes.
fn count_at(sync: u64, bytes: &[u8]) -> Result<(i64, &[u8]), Stop>
    ensures { IfOk result (λ x. (shape : Shape) (marker : Seq ℕ) (datums : Seq Tree) (rest : Seq ℕ) → length marker ≡ sync
        → ReadsBlock shape marker bytes.now datums rest → (x.0 ≡ pos (length datums)) × (x.1.now ≡ rest)) }
{
    let (count, sized) = long_at(bytes)?;
    let (size, behind) = length_at(sized)?;
    let (_stored, synced) = front_at(size, behind)?;
    let (_marker, rest) = front_at(sync, synced)?;
    Ok((count, rest))
}

// The count with that of one block more.
fn with_block(count: u64, more: i64) -> Option<u64>
    ensures { IfSome result (λ n. (k : ℕ) → more ≡ pos k → n ≡ count + k) }
{
    if more < 0 {
        return None;
    }
    count.checked_add(more as u64)
}

// How many datums the blocks have.
fn count_blocks(sync: u64, bytes: &[u8]) -> Option<u64>
    ensures { IfSome result (λ n. (shape : Shape) (marker : Seq ℕ) (datums : Seq Tree) → length marker ≡ sync
        → AreBlocks shape marker bytes.now datums → n ≡ length datums) }
{
    let mut count: u64 = 0;
    let mut rest = bytes;
    for _ in 0..bytes.len() {
        if rest.is_empty() {
            return Some(count);
        }
        let (more, after) = match count_at(sync, rest) {
            Ok(found) => found,
            Err(_) => return None,
        };
        count = with_block(count, more)?;
        rest = after;
    }
    if rest.is_empty() { Some(count) } else { None }
}

/// How many datums the container has. Nothing is found where the bytes are no container.
pub(crate) fn count_datums(alloc: Global, bytes: &[u8]) -> Result<Option<u64>, AllocError>
    ensures { IfOk result (λ found. IfSome found (λ n. (c : Container) → container_of bytes.now ≡ Ok c → n ≡ length c.datums)) }
{
    match read_header(alloc, bytes) {
        Ok((header, rest)) => Ok(count_blocks(header.sync.len() as u64, rest)),
        Err(ContainerFault::Memory) => Err(AllocError),
        Err(_) => Ok(None),
    }
}
