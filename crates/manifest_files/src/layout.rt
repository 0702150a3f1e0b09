//! The places of the fields of manifests and of lists, or the first fault in the order of the fields.
ghost use Rattle.std.specs.Prelude.{◌≡◌, []};
ghost use Rattle.plain_types.specs.Answers.{Answers};
ghost use Rattle.manifest_files.specs.Places.{
  part_place,
  part_places,
  file_places,
  entry_places,
  no_summaries,
  summary_fields,
  summaries_at,
  summary_places,
  row_places,
};

use crate::field_type::FieldType;
use crate::finding::{
    field_at, fields_of_items, fields_under, needed, optional, optional_items, pairs,
};
use crate::partition_kinds::{carries_part, kind_of_field};
use crate::places::{EntryPlaces, FilePlaces, PartPlace, RowPlaces, SummaryPlaces};
use crate::{ManifestFault, field_ids};
use avro_binary::Field;
use row_values::{Column, List, PartField};
use std::alloc::Global;

/// The place of a partition field, whose type carries its kind.
fn part_place(
    columns: &[Column],
    fields: &[Field],
    part: &PartField,
) -> Result<PartPlace, ManifestFault>
    ensures { result ≡ part_place columns.now fields.now part.now }
{
    let kind = kind_of_field(columns, part);
    match field_at(part.field, fields) {
        Some((place, field)) => {
            if carries_part(kind, &field.schema) {
                Ok(PartPlace {
                    field: part.field,
                    kind,
                    place,
                })
            } else {
                Err(ManifestFault::Kind(part.field))
            }
        }
        None => Err(ManifestFault::Field(part.field)),
    }
}

/// The places of the fields of a spec.
#[tactic(auto, unfolding(crate::specs::Places::part_places))]
fn part_places(
    alloc: Global,
    columns: &[Column],
    fields: &[Field],
    parts: &[PartField],
) -> Result<List<PartPlace>, ManifestFault>
    ensures answers { Answers ManifestFault.Memory (λ places. places) result (part_places columns.now fields.now [] parts.now) }
{
    let mut places = Vec::new(alloc);
    let mut rest = parts;
    while let [part, after @ ..] = rest {
        let place = part_place(columns, fields, part)?;
        places.push(place)?;
        rest = after;
    }
    Ok(List::from_vec(places))
}

/// The fields of `data_file`.
#[tactic(auto, unfolding(crate::specs::Places::file_places))]
fn file_places(
    alloc: Global,
    columns: &[Column],
    parts: &[PartField],
    fields: &[Field],
) -> Result<FilePlaces, ManifestFault>
    ensures answers { Answers ManifestFault.Memory (λ places. places) result (file_places columns.now parts.now fields.now) }
{
    let content = optional(FieldType::Int, field_ids::CONTENT, fields)?;
    let path = needed(FieldType::Text, field_ids::FILE_PATH, fields)?;
    let format = needed(FieldType::Text, field_ids::FILE_FORMAT, fields)?;
    let partition = needed(FieldType::Record, field_ids::PARTITION, fields)?;
    let part_fields = part_places(
        alloc,
        columns,
        fields_under(field_ids::PARTITION, fields),
        parts,
    )?;
    let count = needed(FieldType::Long, field_ids::RECORD_COUNT, fields)?;
    let size = needed(FieldType::Long, field_ids::FILE_SIZE_IN_BYTES, fields)?;
    let values = pairs(
        FieldType::Long,
        field_ids::VALUE_COUNTS,
        field_ids::VALUE_COUNTS_KEY,
        field_ids::VALUE_COUNTS_VALUE,
        fields,
    )?;
    let nulls = pairs(
        FieldType::Long,
        field_ids::NULL_VALUE_COUNTS,
        field_ids::NULL_VALUE_COUNTS_KEY,
        field_ids::NULL_VALUE_COUNTS_VALUE,
        fields,
    )?;
    let lower = pairs(
        FieldType::Bytes,
        field_ids::LOWER_BOUNDS,
        field_ids::LOWER_BOUNDS_KEY,
        field_ids::LOWER_BOUNDS_VALUE,
        fields,
    )?;
    let upper = pairs(
        FieldType::Bytes,
        field_ids::UPPER_BOUNDS,
        field_ids::UPPER_BOUNDS_KEY,
        field_ids::UPPER_BOUNDS_VALUE,
        fields,
    )?;
    let key = optional(FieldType::Bytes, field_ids::KEY_METADATA, fields)?;
    let equality_ids = optional_items(FieldType::Int, field_ids::EQUALITY_IDS, fields)?;
    let referenced = optional(FieldType::Text, field_ids::REFERENCED_DATA_FILE, fields)?;
    Ok(FilePlaces {
        content,
        path,
        format,
        partition,
        part_fields,
        count,
        size,
        values,
        nulls,
        lower,
        upper,
        key,
        equality_ids,
        referenced,
    })
}

/// The fields of `manifest_entry`.
#[tactic(auto, unfolding(crate::specs::Places::entry_places))]
pub(crate) fn entry_places(
    alloc: Global,
    columns: &[Column],
    parts: &[PartField],
    fields: &[Field],
) -> Result<EntryPlaces, ManifestFault>
    ensures answers { Answers ManifestFault.Memory (λ places. places) result (entry_places columns.now parts.now fields.now) }
{
    let status = needed(FieldType::Int, field_ids::STATUS, fields)?;
    let snapshot = optional(FieldType::Long, field_ids::SNAPSHOT_ID, fields)?;
    let seq = optional(FieldType::Long, field_ids::SEQUENCE_NUMBER, fields)?;
    let file_seq = optional(FieldType::Long, field_ids::FILE_SEQUENCE_NUMBER, fields)?;
    let data_file = needed(FieldType::Record, field_ids::DATA_FILE, fields)?;
    let file = file_places(
        alloc,
        columns,
        parts,
        fields_under(field_ids::DATA_FILE, fields),
    )?;
    Ok(EntryPlaces {
        status,
        snapshot,
        seq,
        file_seq,
        data_file,
        file,
    })
}

fn no_summaries() -> SummaryPlaces
    ensures { result ≡ no_summaries }
{
    SummaryPlaces {
        place: None,
        contains_null: 0,
        lower: None,
        upper: None,
    }
}

/// The fields of `field_summary`.
#[tactic(auto, unfolding(crate::specs::Places::summary_fields))]
fn summary_fields(place: usize, fields: &[Field]) -> Result<SummaryPlaces, ManifestFault>
    ensures { result ≡ summary_fields place fields.now }
{
    let contains_null = needed(FieldType::Boolean, field_ids::CONTAINS_NULL, fields)?;
    let lower = optional(FieldType::Bytes, field_ids::LOWER_BOUND, fields)?;
    let upper = optional(FieldType::Bytes, field_ids::UPPER_BOUND, fields)?;
    Ok(SummaryPlaces {
        place: Some(place),
        contains_null,
        lower,
        upper,
    })
}

#[tactic(auto, unfolding(crate::specs::Places::summary_places))]
fn summary_places(fields: &[Field]) -> Result<SummaryPlaces, ManifestFault>
    ensures { result ≡ summary_places fields.now }
{
    match optional_items(FieldType::Record, field_ids::PARTITIONS, fields)? {
        Some(place) => summary_fields(place, fields_of_items(field_ids::PARTITIONS, fields)),
        None => Ok(no_summaries()),
    }
}

/// The fields of `manifest_file`.
#[tactic(auto, unfolding(crate::specs::Places::row_places))]
pub(crate) fn row_places(fields: &[Field]) -> Result<RowPlaces, ManifestFault>
    ensures { result ≡ row_places fields.now }
{
    let path = needed(FieldType::Text, field_ids::MANIFEST_PATH, fields)?;
    let file_length = optional(FieldType::Long, field_ids::MANIFEST_LENGTH, fields)?;
    let spec = needed(FieldType::Int, field_ids::PARTITION_SPEC_ID, fields)?;
    let content = needed(FieldType::Int, field_ids::MANIFEST_CONTENT, fields)?;
    let seq = needed(FieldType::Long, field_ids::MANIFEST_SEQUENCE_NUMBER, fields)?;
    let min_seq = needed(FieldType::Long, field_ids::MIN_SEQUENCE_NUMBER, fields)?;
    let snapshot = needed(FieldType::Long, field_ids::ADDED_SNAPSHOT_ID, fields)?;
    let added_files = optional(FieldType::Int, field_ids::ADDED_FILES_COUNT, fields)?;
    let existing_files = optional(FieldType::Int, field_ids::EXISTING_FILES_COUNT, fields)?;
    let deleted_files = optional(FieldType::Int, field_ids::DELETED_FILES_COUNT, fields)?;
    let added_rows = optional(FieldType::Long, field_ids::ADDED_ROWS_COUNT, fields)?;
    let existing_rows = optional(FieldType::Long, field_ids::EXISTING_ROWS_COUNT, fields)?;
    let deleted_rows = optional(FieldType::Long, field_ids::DELETED_ROWS_COUNT, fields)?;
    let summaries = summary_places(fields)?;
    let key = optional(FieldType::Bytes, field_ids::MANIFEST_KEY_METADATA, fields)?;
    Ok(RowPlaces {
        path,
        file_length,
        spec,
        content,
        seq,
        min_seq,
        snapshot,
        added_files,
        existing_files,
        deleted_files,
        added_rows,
        existing_rows,
        deleted_rows,
        summaries,
        key,
    })
}
