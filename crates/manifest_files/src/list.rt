//! The rows of a manifest list.
ghost use Rattle.std.specs.Prelude.{◌≡◌, [], IfOk};
ghost use Rattle.plain_types.specs.Answers.{Answers};
ghost use Rattle.plain_types.specs.Steps.{fault_as};
ghost use Rattle.avro_container.specs.Container.{container_of};
ghost use Rattle.manifest_files.specs.Lists.{
  file_count,
  row_count,
  content_of,
  bound_at,
  summary_of,
  summaries_from,
  row_head,
  whole_row,
  row_of,
  rows_from,
  rows_of_list,
};

use crate::datum_values::{
    boolean_at, bytes_at, int_at, items_at, long_at, present_at, present_in,
};
use crate::layout::row_places;
use crate::manifest_row::RowHead;
use crate::needed::{needed_int, needed_long, needed_text};
use crate::places::{RowPlaces, SummaryPlaces};
use crate::{ManifestContent, ManifestFault, ManifestRow, field_ids};
use avro_binary::Datum;
use avro_container::{Container, ContainerFault, read_container};
use avro_rows::{fields_of, values_of};
use kind_values::Summary;
use row_values::{Bytes, List, Value};
use std::alloc::{AllocError, Global};

/// A count of files, unless it is negative.
fn file_count(place: Option<usize>, values: &[Datum]) -> Option<i32>
    ensures { result ≡ file_count place values.now }
{
    match int_at(values, place) {
        Some(number) => { if 0 <= number { Some(number) } else { None } }
        None => None,
    }
}

/// A count of rows, unless it is negative.
fn row_count(place: Option<usize>, values: &[Datum]) -> Option<i64>
    ensures { result ≡ row_count place values.now }
{
    match long_at(values, place) {
        Some(number) => { if 0 <= number { Some(number) } else { None } }
        None => None,
    }
}

fn content_of(number: i32) -> Result<ManifestContent, ManifestFault>
    ensures { result ≡ content_of number }
{
    if number == 0 {
        Ok(ManifestContent::Data)
    } else if number == 1 {
        Ok(ManifestContent::Deletes)
    } else {
        Err(ManifestFault::Kind(field_ids::MANIFEST_CONTENT))
    }
}

/// A bound as its bytes.
fn bound_at(
    alloc: Global,
    place: Option<usize>,
    values: &[Datum],
) -> Result<Option<Value>, AllocError>
    ensures { IfOk result (λ bound. bound ≡ bound_at place values.now) }
{
    match bytes_at(values, place) {
        Some(bytes) => Ok(Some(Value::Bytes(Bytes::copy_of(alloc, bytes)?))),
        None => Ok(None),
    }
}

#[tactic(auto, unfolding(crate::specs::Lists::summary_of))]
fn summary_of(
    alloc: Global,
    places: &SummaryPlaces,
    datum: &Datum,
) -> Result<Summary, ManifestFault>
    ensures answers { Answers ManifestFault.Memory (λ summary. summary) result (summary_of places.now datum.now) }
{
    let Some(element) = present_in(datum) else {
        return Err(ManifestFault::Kind(field_ids::PARTITIONS));
    };
    let values = values_of(element);
    let Some(contains_null) = boolean_at(values, places.contains_null) else {
        return Err(ManifestFault::Kind(field_ids::CONTAINS_NULL));
    };
    Ok(Summary {
        contains_null,
        lower: bound_at(alloc, places.lower, values)?,
        upper: bound_at(alloc, places.upper, values)?,
    })
}

#[tactic(auto, unfolding(crate::specs::Lists::summaries_from))]
fn summaries_of(
    alloc: Global,
    places: &SummaryPlaces,
    datums: &[Datum],
) -> Result<List<Summary>, ManifestFault>
    ensures answers { Answers ManifestFault.Memory (λ summaries. summaries) result (summaries_from places.now [] datums.now) }
{
    let mut summaries = Vec::new(alloc);
    let mut rest = datums;
    while let [datum, after @ ..] = rest {
        let summary = summary_of(alloc, places, datum)?;
        summaries.push(summary)?;
        rest = after;
    }
    Ok(List::from_vec(summaries))
}

/// What each row has.
#[tactic(auto, unfolding(crate::specs::Lists::row_head))]
fn row_head(alloc: Global, places: &RowPlaces, values: &[Datum]) -> Result<RowHead, ManifestFault>
    ensures answers { Answers ManifestFault.Memory (λ head. head) result (row_head places.now values.now) }
{
    let path = needed_text(alloc, field_ids::MANIFEST_PATH, places.path, values)?;
    let spec = needed_int(field_ids::PARTITION_SPEC_ID, places.spec, values)?;
    let number = needed_int(field_ids::MANIFEST_CONTENT, places.content, values)?;
    let content = content_of(number)?;
    let seq = needed_long(field_ids::MANIFEST_SEQUENCE_NUMBER, places.seq, values)?;
    let min_seq = needed_long(field_ids::MIN_SEQUENCE_NUMBER, places.min_seq, values)?;
    let snapshot = needed_long(field_ids::ADDED_SNAPSHOT_ID, places.snapshot, values)?;
    Ok(RowHead {
        path,
        spec,
        content,
        seq,
        min_seq,
        snapshot,
    })
}

/// The row, with what it may lack.
fn whole_row(
    places: &RowPlaces,
    values: &[Datum],
    head: RowHead,
    partitions: List<Summary>,
) -> ManifestRow
    ensures { result ≡ whole_row places.now values.now head partitions }
{
    let RowHead {
        path,
        spec,
        content,
        seq,
        min_seq,
        snapshot,
    } = head;
    ManifestRow {
        manifest_path: path,
        manifest_length: long_at(values, places.file_length),
        partition_spec_id: spec,
        content,
        sequence_number: seq,
        min_sequence_number: min_seq,
        added_snapshot_id: snapshot,
        added_files_count: file_count(places.added_files, values),
        existing_files_count: file_count(places.existing_files, values),
        deleted_files_count: file_count(places.deleted_files, values),
        added_rows_count: row_count(places.added_rows, values),
        existing_rows_count: row_count(places.existing_rows, values),
        deleted_rows_count: row_count(places.deleted_rows, values),
        partitions,
    }
}

#[tactic(auto, unfolding(crate::specs::Lists::row_of))]
fn row_of(alloc: Global, places: &RowPlaces, values: &[Datum]) -> Result<ManifestRow, ManifestFault>
    ensures answers { Answers ManifestFault.Memory (λ row. row) result (row_of places.now values.now) }
{
    let head = row_head(alloc, places, values)?;
    let items = items_at(values, places.summaries.place);
    let partitions = summaries_of(alloc, &places.summaries, items)?;
    if present_at(values, places.key).is_some() {
        return Err(ManifestFault::Key(field_ids::MANIFEST_KEY_METADATA));
    }
    Ok(whole_row(places, values, head, partitions))
}

#[tactic(auto, unfolding(crate::specs::Lists::rows_from))]
fn rows_of(
    alloc: Global,
    places: &RowPlaces,
    datums: &[Datum],
) -> Result<List<ManifestRow>, ManifestFault>
    ensures answers { Answers ManifestFault.Memory (λ rows. rows) result (rows_from places.now [] datums.now) }
{
    let mut rows = Vec::with_capacity(alloc, datums.len())?;
    let mut rest = datums;
    while let [datum, after @ ..] = rest {
        let row = row_of(alloc, places, values_of(datum))?;
        rows.push(row)?;
        rest = after;
    }
    Ok(List::from_vec(rows))
}

/// The container that the bytes are.
pub(crate) fn container_of(alloc: Global, bytes: &[u8]) -> Result<Container, ManifestFault>
    ensures answers { Answers ManifestFault.Memory (λ c. c) result (fault_as ManifestFault.Container (container_of bytes.now)) }
{
    match read_container(alloc, bytes) {
        Ok(container) => Ok(container),
        Err(ContainerFault::Memory) => Err(ManifestFault::Memory),
        Err(fault) => Err(ManifestFault::Container(fault)),
    }
}

/// Reads the rows of a manifest list. A fault of the container comes first, then one of a field's type, in the order
/// of the fields, then that of the first row that has one.
#[tactic(auto, unfolding(crate::specs::Lists::rows_of_list))]
pub fn read_list(alloc: Global, bytes: &[u8]) -> Result<List<ManifestRow>, ManifestFault>
    ensures answers { Answers ManifestFault.Memory (λ rows. rows) result (rows_of_list bytes.now) }
{
    let container = container_of(alloc, bytes)?;
    let places = row_places(fields_of(&container.schema))?;
    rows_of(alloc, &places, container.datums.as_slice())
}
