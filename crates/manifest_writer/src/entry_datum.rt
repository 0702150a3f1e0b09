//! The entries of a manifest as datums.
ghost use Rattle.std.specs.Prelude.{◌≡◌, IfOk, map};
ghost use Rattle.std.specs.List.{AllByRecursion};
ghost use Rattle.avro_binary.specs.Spelling.{IsSignedOf};
ghost use Rattle.std.specs.Str.{IsUtf8};
ghost use Rattle.manifest_writer.specs.Facts.{HasIds};
ghost use Rattle.manifest_writer.specs.EntryDatum.{
  status_number,
  content_number,
  own_number,
  id_datum,
  ids_value,
  number_values,
  head_values,
  fact_values,
  file_values,
  datum_of_entry,
  entry_size,
  HasNumbers,
  HasFile,
  IsEntry,
};

use crate::fact::Fact;
use crate::fact_datum::fact_value;
use crate::part_datum::part_datums;
use crate::value::{count_number, int_datum, long_datum, optional_long, optional_text, text_datum};
use avro_binary::{Datum, Items, Octets, put_each};
use kind_values::ColumnStats;
use manifest_files::{Content, Entry};
use row_values::{Spec, TableSchema};
use row_writer::{null_branch, value_branch};
use std::alloc::{AllocError, Global};

fn status_number(status: u8) -> i32
    ensures { result ≡ status_number status }
{
    if status == 0 {
        0
    } else if status == 1 {
        1
    } else {
        2
    }
}

fn content_number(content: Content) -> i32
    ensures { result ≡ content_number content }
{
    match content {
        Content::Data => 0,
        Content::PositionDeletes => 1,
        Content::EqualityDeletes => 2,
    }
}

fn own_number(status: u8, number: i64) -> Option<i64>
    ensures { result ≡ own_number status number }
{
    if status == 1 { None } else { Some(number) }
}

fn datums_of_ids(alloc: Global, ids: &[i32]) -> Result<Vec<Datum>, AllocError>
    ensures same { IfOk result (λ ds. ds.items ≡ map id_datum ids.now) }
    ensures range { IfOk result (λ ds. AllByRecursion (IsSignedOf 31) ids.now) }
{
    let mut datums = Vec::new(alloc);
    for id in ids {
        datums.push(int_datum(*id))?;
    }
    Ok(datums)
}

fn ids_value(alloc: Global, ids: &[i32]) -> Result<Datum, AllocError>
    ensures same { IfOk result (λ d. d ≡ ids_value ids.now) }
    ensures range { IfOk result (λ d. AllByRecursion (IsSignedOf 31) ids.now) }
{
    match ids {
        [] => null_branch(alloc),
        [_, ..] => {
            let datums = datums_of_ids(alloc, ids)?;
            value_branch(alloc, Datum::Array(Items::from_vec(datums)))
        }
    }
}

fn number_values(alloc: Global, entry: &Entry) -> Result<Vec<Datum>, AllocError>
    ensures same { IfOk result (λ values. values.items ≡ number_values entry.now) }
    ensures range { IfOk result (λ values. HasNumbers entry.now) }
{
    let seq = own_number(entry.status, entry.seq);
    let file_seq = own_number(entry.status, entry.file_seq);
    let mut values = Vec::new(alloc);
    values.push(int_datum(status_number(entry.status)))?;
    values.push(optional_long(alloc, Some(entry.snapshot))?)?;
    values.push(optional_long(alloc, seq)?)?;
    values.push(optional_long(alloc, file_seq)?)?;
    Ok(values)
}

fn head_values(
    alloc: Global,
    spec: &Spec,
    schema: &TableSchema,
    entry: &Entry,
) -> Result<Vec<Datum>, AllocError>
    ensures same { IfOk result (λ values. values.items ≡ head_values spec.now schema.now entry.now) }
    ensures range { IfOk result (λ values. IsUtf8 entry.now.path) }
{
    let format = Octets::copy_of(alloc, b"AVRO")?;
    let parts = part_datums(
        alloc,
        schema.columns.as_slice(),
        spec.fields.as_slice(),
        entry.partition.as_slice(),
    )?;
    let mut values = Vec::new(alloc);
    values.push(int_datum(content_number(entry.content)))?;
    values.push(text_datum(alloc, &entry.path)?)?;
    values.push(Datum::Text(format))?;
    values.push(Datum::Record(Items::from_vec(parts)))?;
    values.push(long_datum(count_number(entry.count)))?;
    values.push(long_datum(count_number(entry.size)))?;
    Ok(values)
}

fn fact_values(alloc: Global, stats: &[ColumnStats]) -> Result<Vec<Datum>, AllocError>
    ensures same { IfOk result (λ values. values.items ≡ fact_values stats.now) }
    ensures range { IfOk result (λ values. HasIds stats.now) }
{
    let mut values = Vec::new(alloc);
    values.push(fact_value(alloc, Fact::Values, stats)?)?;
    values.push(fact_value(alloc, Fact::Nulls, stats)?)?;
    values.push(fact_value(alloc, Fact::Lower, stats)?)?;
    values.push(fact_value(alloc, Fact::Upper, stats)?)?;
    Ok(values)
}

fn file_values(
    alloc: Global,
    spec: &Spec,
    schema: &TableSchema,
    entry: &Entry,
) -> Result<Vec<Datum>, AllocError>
    ensures same { IfOk result (λ values. values.items ≡ file_values spec.now schema.now entry.now) }
    ensures range { IfOk result (λ values. HasFile entry.now) }
{
    let mut values = head_values(alloc, spec, schema, entry)?;
    let mut facts = fact_values(alloc, entry.stats.columns.as_slice())?;
    values.append(&mut facts)?;
    values.push(ids_value(alloc, entry.equality_ids.as_slice())?)?;
    values.push(optional_text(alloc, &entry.referenced)?)?;
    Ok(values)
}

fn datum_of_entry(
    alloc: Global,
    spec: &Spec,
    schema: &TableSchema,
    entry: &Entry,
) -> Result<Datum, AllocError>
    ensures same { IfOk result (λ d. d ≡ datum_of_entry spec.now schema.now entry.now) }
    ensures range { IfOk result (λ d. IsEntry entry.now) }
{
    let mut values = number_values(alloc, entry)?;
    let file = file_values(alloc, spec, schema, entry)?;
    values.push(Datum::Record(Items::from_vec(file)))?;
    Ok(Datum::Record(Items::from_vec(values)))
}

/// How many bytes the entry takes among the entries of a manifest.
pub fn entry_size(
    alloc: Global,
    spec: &Spec,
    schema: &TableSchema,
    entry: &Entry,
) -> Result<usize, AllocError>
    ensures { IfOk result (λ size. size ≡ entry_size spec.now schema.now entry.now) }
{
    let datums = [datum_of_entry(alloc, spec, schema, entry)?];
    let mut bytes = Vec::new(alloc);
    put_each(datums.as_slice(), &mut bytes)?;
    Ok(bytes.len())
}

pub(crate) fn datums_of_entries(
    alloc: Global,
    spec: &Spec,
    schema: &TableSchema,
    entries: &[Entry],
) -> Result<Vec<Datum>, AllocError>
    ensures same { IfOk result (λ ds. ds.items ≡ map (datum_of_entry spec.now schema.now) entries.now) }
    ensures range { IfOk result (λ ds. AllByRecursion IsEntry entries.now) }
{
    let mut datums = Vec::new(alloc);
    for entry in entries {
        datums.push(datum_of_entry(alloc, spec, schema, entry)?)?;
    }
    Ok(datums)
}
