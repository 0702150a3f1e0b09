//! The metadata of a manifest's file.
ghost use Rattle.std.specs.Prelude.{◌≡◌, IfOk, string_bytes};
ghost use Rattle.std.specs.Fmt.{signed_decimal};
ghost use Rattle.manifest_writer.specs.ManifestMeta.{content_word, manifest_content, meta_pair, manifest_meta};

use avro_container::MetaPair;
use iceberg_schema::{schema_text, spec_text};
use manifest_files::{Content, Entry};
use plain_types::{Bytes, Text};
use row_values::{Spec, TableSchema};
use std::alloc::{AllocError, Global};

fn content_word(content: Content) -> &'static [u8]
    ensures { result.now ≡ content_word content }
{
    match content {
        Content::Data => b"data",
        Content::PositionDeletes | Content::EqualityDeletes => b"deletes",
    }
}

fn manifest_content(entries: &[Entry]) -> &'static [u8]
    ensures { result.now ≡ manifest_content entries.now }
{
    match entries {
        [] => b"data",
        [entry, ..] => content_word(entry.content),
    }
}

fn meta_pair(alloc: Global, key: &str, value: Bytes) -> Result<MetaPair, AllocError>
    ensures { IfOk result (λ pair. pair ≡ meta_pair key.now value) }
{
    Ok(MetaPair {
        key: Text::copy_of(alloc, key)?,
        value,
    })
}

fn word_pair(alloc: Global, key: &str, word: &[u8]) -> Result<MetaPair, AllocError>
    ensures { IfOk result (λ pair. pair ≡ meta_pair key.now word.now) }
{
    meta_pair(alloc, key, Bytes::copy_of(alloc, word)?)
}

fn number_pair(alloc: Global, key: &str, number: i32) -> Result<MetaPair, AllocError>
    ensures { IfOk result (λ pair. pair ≡ meta_pair key.now (signed_decimal number)) }
{
    let text = format!(in alloc; "{number}")?;
    word_pair(alloc, key, text.as_bytes())
}

pub(crate) fn manifest_meta(
    alloc: Global,
    entries: &[Entry],
    spec: &Spec,
    schema: &TableSchema,
) -> Result<Vec<MetaPair>, AllocError>
    ensures { IfOk result (λ pairs. pairs.items ≡ manifest_meta entries.now spec.now schema.now) }
{
    let mut pairs = Vec::new(alloc);
    pairs.push(meta_pair(alloc, "schema", schema_text(alloc, schema)?)?)?;
    pairs.push(number_pair(alloc, "schema-id", schema.id)?)?;
    pairs.push(meta_pair(alloc, "partition-spec", spec_text(alloc, spec)?)?)?;
    pairs.push(number_pair(alloc, "partition-spec-id", spec.id)?)?;
    pairs.push(word_pair(alloc, "format-version", b"2")?)?;
    pairs.push(word_pair(alloc, "content", manifest_content(entries))?)?;
    Ok(pairs)
}
