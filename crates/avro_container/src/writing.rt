//! Containers, written at the end of bytes.

ghost use Rattle.plain_types.specs.Appends.{Appends};
ghost use Rattle.std.specs.Prelude.{◌≡◌, ◌++◌, ◌∷◌, ◌<◌, [], IfOk, map, take, drop, codes};
ghost use Rattle.std.specs.List.{concat};
ghost use Rattle.avro_binary.specs.Spelling.{natural, counted, block, spelling};
ghost use Rattle.avro_container.specs.Header.{magic};
ghost use Rattle.avro_container.specs.ContainerText.{sync, pair_text, codec_pair, header_text, block_text, blocks_text};

use crate::pairs::MetaPair;
use avro_binary::{Datum, Schema, put_bytes, put_counted, put_each, put_natural, write_schema};
use std::alloc::{AllocError, Global};

fn put_sync(out: &mut Vec<u8>) -> Result<(), AllocError>
    ensures { Appends out.old.items out.new.items sync result }
{
    put_bytes(b"iceberg-dml-sync", out)
}

fn put_pair(key: &[u8], value: &[u8], out: &mut Vec<u8>) -> Result<(), AllocError>
    ensures { Appends out.old.items out.new.items (pair_text (record { key = key.now; value = value.now })) result }
{
    put_counted(key, out)?;
    put_counted(value, out)?;
    Ok(())
}

fn put_pairs(pairs: &[MetaPair], out: &mut Vec<u8>) -> Result<(), AllocError>
    ensures { Appends out.old.items out.new.items (concat (map pair_text pairs.now)) result }
{
    for pair in pairs {
        put_pair(pair.key.as_bytes(), pair.value.as_slice(), out)?;
    }
    Ok(())
}

fn put_own_pairs(schema: &[u8], out: &mut Vec<u8>) -> Result<(), AllocError>
    ensures { Appends out.old.items out.new.items (concat (map pair_text (record { key = codes "avro.schema"; value = schema.now } ∷ codec_pair ∷ []))) result }
{
    put_pair(b"avro.schema", schema, out)?;
    put_pair(b"avro.codec", b"null", out)?;
    Ok(())
}

fn put_metadata(schema: &[u8], meta: &[MetaPair], out: &mut Vec<u8>) -> Result<(), AllocError>
    ensures { Appends out.old.items out.new.items (block (map pair_text (record { key = codes "avro.schema"; value = schema.now } ∷ codec_pair ∷ meta.now))) result }
{
    put_natural(meta.len() as u64 + 2, out)?;
    put_own_pairs(schema, out)?;
    put_pairs(meta, out)?;
    out.push(0)?;
    Ok(())
}

fn put_header(schema: &[u8], meta: &[MetaPair], out: &mut Vec<u8>) -> Result<(), AllocError>
    ensures { Appends out.old.items out.new.items (magic ++ block (map pair_text (record { key = codes "avro.schema"; value = schema.now } ∷ codec_pair ∷ meta.now)) ++ sync) result }
{
    put_bytes(b"Obj\x01", out)?;
    put_metadata(schema, meta, out)?;
    put_sync(out)?;
    Ok(())
}

fn put_block(alloc: Global, datums: &[Datum], out: &mut Vec<u8>) -> Result<(), AllocError>
    ensures { Appends out.old.items out.new.items (block_text datums.now) result }
{
    let mut stored = Vec::new(alloc);
    put_each(datums, &mut stored)?;
    put_natural(datums.len() as u64, out)?;
    put_counted(stored.as_slice(), out)?;
    put_sync(out)?;
    Ok(())
}

/// The first datums, at most `limit`, and the others.
fn cut(limit: usize, datums: &[Datum]) -> (&[Datum], &[Datum])
    ensures front { result.0.now ≡ take limit datums.now }
    ensures back { result.1.now ≡ drop limit datums.now }
{
    if limit < datums.len() {
        datums.split_at(limit)
    } else {
        (datums, &datums[datums.len()..])
    }
}

/// Blocks of at most `limit` datums.
pub fn put_blocks(
    alloc: Global,
    limit: usize,
    datums: &[Datum],
    out: &mut Vec<u8>,
) -> Result<(), AllocError>
    requires { 0 < limit }
    ensures { Appends out.old.items out.new.items (blocks_text limit datums.now) result }
{
    let mut rest = datums;
    while !rest.is_empty() {
        let (block, after) = cut(limit, rest);
        put_block(alloc, block, out)?;
        rest = after;
    }
    Ok(())
}

pub fn container_bytes(
    alloc: Global,
    schema: &Schema,
    meta: &[MetaPair],
    datums: &[Datum],
) -> Result<Vec<u8>, AllocError>
    ensures { IfOk result (λ text. text.items ≡ header_text schema.now meta.now ++ blocks_text 1000 datums.now) }
{
    let mut out = Vec::new(alloc);
    let schema = write_schema(alloc, schema)?;
    put_header(schema.as_slice(), meta, &mut out)?;
    put_blocks(alloc, 1000, datums, &mut out)?;
    Ok(out)
}
