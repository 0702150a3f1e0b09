//! Containers of longs, written and read back.

ghost use Rattle.std.specs.Prelude.{IfOk};
ghost use Rattle.std.specs.List.{AllByRecursion};
ghost use Rattle.avro_binary.specs.Shape.{long_shape};
ghost use Rattle.avro_binary.specs.Spelling.{Fits};

use avro_binary::{Datum, Logical, Schema};
use avro_container::{Container, read_container, write_container};
use plain_types::List;
use std::alloc::{AllocError, Global};

/// The longs from 0 on.
fn longs(alloc: Global, count: u32) -> Result<Vec<Datum>, AllocError>
    ensures { IfOk result (λ v. AllByRecursion (Fits long_shape) v.items) }
{
    let mut datums = Vec::new(alloc);
    for n in 0..count {
        datums.push(Datum::Long(i64::from(n)))?;
    }
    Ok(datums)
}

/// How often the sync bytes stand in a file.
fn syncs(bytes: &[u8]) -> usize {
    bytes
        .windows(16)
        .filter(|part| *part == b"iceberg-dml-sync".as_slice())
        .count()
}

/// Whether so many longs are written in so many blocks, and read back.
fn come_back(alloc: Global, count: u32, blocks: usize) -> bool {
    let Ok(datums) = longs(alloc, count) else {
        return false;
    };
    let container = Container {
        schema: Schema::Long(Logical::Plain),
        meta: List::from_vec(Vec::new(alloc)),
        datums: List::from_vec(datums),
    };
    let Ok(bytes) = write_container(alloc, &container) else {
        return false;
    };
    let Ok(found) = read_container(alloc, bytes.as_slice()) else {
        return false;
    };
    syncs(bytes.as_slice()) == blocks.saturating_add(1) && found.datums.len() == count as usize
}

#[test]
fn a_block_has_at_most_1000_longs(rt: HostRuntime) {
    for (count, blocks) in [(0, 0), (1000, 1), (2001, 3)] {
        assert!(rt; come_back(rt.alloc(), count, blocks), "{count}");
    }
}
