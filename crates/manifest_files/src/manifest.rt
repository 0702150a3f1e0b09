//! The entries of a manifest.
ghost use Rattle.std.specs.Prelude.{◌≡◌, ◌≢◌, [], Err};
ghost use Rattle.plain_types.specs.Answers.{Answers};
ghost use Rattle.manifest_files.specs.Entries.{
  status_of,
  status_at,
  raw_numbers,
  content_of,
  content_at,
  is_avro,
  format_at,
  part_value,
  part_values,
  partition_at,
  id_in,
  ids_from,
  whole_map,
  whole_maps,
  single_keys,
  file_parts,
  known_format,
  allowed,
  whole_entry,
  entry_of,
  entries_from,
  entries_of,
};

use crate::datum_values::{
    int_at, int_in, items_at, long_at, present, present_at, present_in, text_at, text_bytes_at,
};
use crate::entry::{FileParts, is_live};
use crate::known_column::KnownColumn;
use crate::layout::entry_places;
use crate::list::container_of;
use crate::needed::{needed_count, needed_text};
use crate::numbers::{Numbers, RawNumbers, numbered};
use crate::places::{EntryPlaces, FilePlaces, PairPlaces, PartPlace};
use crate::statistics::{are_pairs, has_twice, known_columns, stats_of};
use crate::{Content, Entry, ManifestFault, ManifestRow, field_ids};
use avro_binary::Datum;
use avro_rows::{fields_of, value_of, values_of};
use kind_values::Stats;
use row_values::{List, Row, Spec, TableSchema, Text, Value};
use std::alloc::Global;

/// 0 is an existing file, 1 an added one, 2 a deleted one.
fn status_of(number: i32) -> Result<u8, ManifestFault>
    ensures { result ≡ status_of number }
{
    if number == 0 {
        Ok(0)
    } else if number == 1 {
        Ok(1)
    } else if number == 2 {
        Ok(2)
    } else {
        Err(ManifestFault::Status(number))
    }
}

fn status_at(place: usize, values: &[Datum]) -> Result<u8, ManifestFault>
    ensures { result ≡ status_at place values.now }
{
    match int_at(values, Some(place)) {
        Some(number) => status_of(number),
        None => Err(ManifestFault::Kind(field_ids::STATUS)),
    }
}

/// What the entry itself says of its numbers.
fn raw_numbers(places: &EntryPlaces, status: u8, values: &[Datum]) -> RawNumbers
    ensures { result ≡ raw_numbers places.now status values.now }
{
    RawNumbers {
        status,
        snapshot: long_at(values, places.snapshot),
        seq: long_at(values, places.seq),
        file_seq: long_at(values, places.file_seq),
    }
}

fn content_of(number: i32) -> Result<Content, ManifestFault>
    ensures { result ≡ content_of number }
{
    if number == 0 {
        Ok(Content::Data)
    } else if number == 1 {
        Ok(Content::PositionDeletes)
    } else if number == 2 {
        Ok(Content::EqualityDeletes)
    } else {
        Err(ManifestFault::Kind(field_ids::CONTENT))
    }
}

/// A file is one of data where nothing is said.
fn content_at(place: Option<usize>, values: &[Datum]) -> Result<Content, ManifestFault>
    ensures { result ≡ content_at place values.now }
{
    match int_at(values, place) {
        Some(number) => content_of(number),
        None => Ok(Content::Data),
    }
}

/// `AVRO`, in any case.
fn is_avro(format: &[u8]) -> bool
    ensures { result ≡ is_avro format.now }
{
    match format {
        [a, v, r, o] => {
            a.eq_ignore_ascii_case(&b'A')
                && v.eq_ignore_ascii_case(&b'V')
                && r.eq_ignore_ascii_case(&b'R')
                && o.eq_ignore_ascii_case(&b'O')
        }
        _ => false,
    }
}

fn format_at(place: usize, values: &[Datum]) -> Result<bool, ManifestFault>
    ensures { result ≡ format_at place values.now }
{
    match text_bytes_at(values, Some(place)) {
        Some(format) => Ok(is_avro(format)),
        None => Err(ManifestFault::Kind(field_ids::FILE_FORMAT)),
    }
}

/// A partition value of its field's kind, or NULL.
fn part_value(alloc: Global, values: &[Datum], part: &PartPlace) -> Result<Value, ManifestFault>
    ensures answers { Answers ManifestFault.Memory (λ v. v) result (part_value values.now part.now) }
{
    let Some(datum) = present(values, part.place) else {
        return Ok(Value::Null);
    };
    let Some(kind) = part.kind else {
        return Err(ManifestFault::Kind(part.field));
    };
    match value_of(alloc, kind, datum)? {
        Some(value) => Ok(value),
        None => Err(ManifestFault::Kind(part.field)),
    }
}

#[tactic(auto, unfolding(crate::specs::Entries::part_values))]
fn part_values(alloc: Global, values: &[Datum], parts: &[PartPlace]) -> Result<Row, ManifestFault>
    ensures answers { Answers ManifestFault.Memory (λ row. row) result (part_values values.now [] parts.now) }
{
    let mut row = Vec::with_capacity(alloc, parts.len())?;
    let mut rest = parts;
    while let [part, after @ ..] = rest {
        let value = part_value(alloc, values, part)?;
        row.push(value)?;
        rest = after;
    }
    Ok(List::from_vec(row))
}

/// One value for each field of the spec.
#[tactic(auto, unfolding(crate::specs::Entries::partition_at))]
fn partition_at(alloc: Global, places: &FilePlaces, values: &[Datum]) -> Result<Row, ManifestFault>
    ensures answers { Answers ManifestFault.Memory (λ row. row) result (partition_at places.now values.now) }
{
    match present(values, places.partition) {
        Some(datum) => part_values(alloc, values_of(datum), places.part_fields.as_slice()),
        None => Err(ManifestFault::Kind(field_ids::PARTITION)),
    }
}

fn id_in(datum: &Datum) -> Result<i32, ManifestFault>
    ensures { result ≡ id_in datum.now }
{
    match present_in(datum) {
        Some(held) => match int_in(held) {
            Some(id) => Ok(id),
            None => Err(ManifestFault::Kind(field_ids::EQUALITY_IDS)),
        },
        None => Err(ManifestFault::Kind(field_ids::EQUALITY_IDS)),
    }
}

#[tactic(auto, unfolding(crate::specs::Entries::ids_from))]
fn ids_of(alloc: Global, datums: &[Datum]) -> Result<List<i32>, ManifestFault>
    ensures answers { Answers ManifestFault.Memory (λ ids. ids) result (ids_from [] datums.now) }
{
    let mut ids = Vec::with_capacity(alloc, datums.len())?;
    let mut rest = datums;
    while let [datum, after @ ..] = rest {
        let id = id_in(datum)?;
        ids.push(id)?;
        rest = after;
    }
    Ok(List::from_vec(ids))
}

/// Each pair of the map has a key and a value.
fn whole_map(id: i32, places: &PairPlaces, values: &[Datum]) -> Result<(), ManifestFault>
    ensures { result ≡ whole_map id places.now values.now }
{
    if are_pairs(places, items_at(values, places.place)) {
        Ok(())
    } else {
        Err(ManifestFault::Kind(id))
    }
}

#[tactic(auto, unfolding(crate::specs::Entries::whole_maps))]
fn whole_maps(places: &FilePlaces, values: &[Datum]) -> Result<(), ManifestFault>
    ensures { result ≡ whole_maps places.now values.now }
{
    whole_map(field_ids::VALUE_COUNTS, &places.values, values)?;
    whole_map(field_ids::NULL_VALUE_COUNTS, &places.nulls, values)?;
    whole_map(field_ids::LOWER_BOUNDS, &places.lower, values)?;
    whole_map(field_ids::UPPER_BOUNDS, &places.upper, values)
}

/// No key of the map stands twice.
fn single_keys(id: i32, places: &PairPlaces, values: &[Datum]) -> Result<(), ManifestFault>
    ensures { result ≡ single_keys id places.now values.now }
{
    if has_twice(places, items_at(values, places.place)) {
        Err(ManifestFault::Twice(id))
    } else {
        Ok(())
    }
}

/// What the record of a file says, beside its statistics.
#[tactic(auto, unfolding(crate::specs::Entries::file_parts))]
fn file_parts(
    alloc: Global,
    places: &FilePlaces,
    values: &[Datum],
) -> Result<FileParts, ManifestFault>
    ensures answers { Answers ManifestFault.Memory (λ parts. parts) result (file_parts places.now values.now) }
{
    let content = content_at(places.content, values)?;
    let path = needed_text(alloc, field_ids::FILE_PATH, places.path, values)?;
    let is_avro = format_at(places.format, values)?;
    let partition = partition_at(alloc, places, values)?;
    let count = needed_count(field_ids::RECORD_COUNT, places.count, values)?;
    let size = needed_count(field_ids::FILE_SIZE_IN_BYTES, places.size, values)?;
    whole_maps(places, values)?;
    let equality_ids = ids_of(alloc, items_at(values, places.equality_ids))?;
    Ok(FileParts {
        content,
        path,
        is_avro,
        partition,
        count,
        size,
        equality_ids,
        referenced: text_at(alloc, values, places.referenced)?,
    })
}

/// A live file is in Avro.
fn known_format(alloc: Global, status: u8, parts: &FileParts) -> Result<(), ManifestFault>
    ensures { result ≢ Err ManifestFault.Memory → result ≡ known_format status parts.now }
{
    if is_live(status) && !parts.is_avro {
        let path = Text::copy_of(alloc, parts.path.as_str())?;
        return Err(ManifestFault::Format(path));
    }
    Ok(())
}

/// What no entry may have: a live file of another format, an encrypted file, a key twice.
#[tactic(auto, unfolding(crate::specs::Entries::allowed))]
fn allowed(
    alloc: Global,
    status: u8,
    places: &FilePlaces,
    parts: &FileParts,
    values: &[Datum],
) -> Result<(), ManifestFault>
    ensures { result ≢ Err ManifestFault.Memory → result ≡ allowed status places.now parts.now values.now }
{
    known_format(alloc, status, parts)?;
    if present_at(values, places.key).is_some() {
        return Err(ManifestFault::Key(field_ids::KEY_METADATA));
    }
    single_keys(field_ids::VALUE_COUNTS, &places.values, values)?;
    single_keys(field_ids::NULL_VALUE_COUNTS, &places.nulls, values)?;
    single_keys(field_ids::LOWER_BOUNDS, &places.lower, values)?;
    single_keys(field_ids::UPPER_BOUNDS, &places.upper, values)
}

/// The entry, whose file's record has these values.
fn whole_entry(status: u8, numbers: &Numbers, spec: i32, parts: FileParts, stats: Stats) -> Entry
    ensures { result ≡ whole_entry status numbers.now spec parts stats }
{
    let FileParts {
        content,
        path,
        partition,
        count,
        size,
        equality_ids,
        referenced,
        ..
    } = parts;
    Entry {
        status,
        snapshot: numbers.snapshot,
        seq: numbers.seq,
        file_seq: numbers.file_seq,
        content,
        path,
        spec,
        partition,
        count,
        size,
        stats,
        equality_ids,
        referenced,
    }
}

#[tactic(auto, unfolding(crate::specs::Entries::entry_of))]
fn entry_of(
    alloc: Global,
    places: &EntryPlaces,
    row: &ManifestRow,
    spec: i32,
    columns: &[KnownColumn],
    datum: &Datum,
) -> Result<Entry, ManifestFault>
    ensures answers { Answers ManifestFault.Memory (λ entry. entry) result (entry_of places.now row.now spec columns.now datum.now) }
{
    let values = values_of(datum);
    let status = status_at(places.status, values)?;
    let numbers = numbered(row, &raw_numbers(places, status, values))?;
    let Some(file) = present(values, places.data_file) else {
        return Err(ManifestFault::Kind(field_ids::DATA_FILE));
    };
    let file = values_of(file);
    let parts = file_parts(alloc, &places.file, file)?;
    allowed(alloc, status, &places.file, &parts, file)?;
    let stats = stats_of(alloc, &places.file, file, columns)?;
    Ok(whole_entry(status, &numbers, spec, parts, stats))
}

#[tactic(auto, unfolding(crate::specs::Entries::entries_from))]
fn entries_from(
    alloc: Global,
    places: &EntryPlaces,
    row: &ManifestRow,
    spec: i32,
    columns: &[KnownColumn],
    datums: &[Datum],
) -> Result<List<Entry>, ManifestFault>
    ensures answers { Answers ManifestFault.Memory (λ entries. entries) result (entries_from places.now row.now spec columns.now [] datums.now) }
{
    let mut entries = Vec::with_capacity(alloc, datums.len())?;
    let mut rest = datums;
    while let [datum, after @ ..] = rest {
        let entry = entry_of(alloc, places, row, spec, columns, datum)?;
        entries.push(entry)?;
        rest = after;
    }
    Ok(List::from_vec(entries))
}

/// Reads the entries of a manifest that has this row in its list, and is partitioned by this spec of a table with this
/// schema. A fault of the container comes first, then one of a field's type, in the order of the fields, then that of
/// the first entry that has one: of its status, of its values in the order of the fields, of its format, of its key
/// metadata, of a map that has a key twice.
#[tactic(auto, unfolding(crate::specs::Entries::entries_of))]
pub fn read_manifest(
    alloc: Global,
    bytes: &[u8],
    row: &ManifestRow,
    spec: &Spec,
    schema: &TableSchema,
) -> Result<List<Entry>, ManifestFault>
    ensures answers { Answers ManifestFault.Memory (λ entries. entries) result (entries_of bytes.now row.now spec.now schema.now) }
{
    let container = container_of(alloc, bytes)?;
    let columns = schema.columns.as_slice();
    let fields = fields_of(&container.schema);
    let places = entry_places(alloc, columns, spec.fields.as_slice(), fields)?;
    let known = known_columns(alloc, columns)?;
    let datums = container.datums.as_slice();
    entries_from(alloc, &places, row, spec.id, known.as_slice(), datums)
}
