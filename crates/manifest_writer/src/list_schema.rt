//! The type of the rows of a manifest list.
ghost use Rattle.std.specs.Prelude.{◌≡◌, IfOk};
ghost use Rattle.manifest_writer.specs.ListTypes.{head_fields, count_fields, summary_fields, partitions_field, list_types};

use avro_binary::{Field, Logical, Schema};
use manifest_files::field_ids;
use row_writer::{field, items_type, optional_type, record_type};
use std::alloc::{AllocError, Global};

fn head_fields(alloc: Global) -> Result<Vec<Field>, AllocError>
    ensures { IfOk result (λ fields. fields.items ≡ head_fields) }
{
    let long = Schema::Long(Logical::Plain);
    let mut fields = Vec::new(alloc);
    fields.push(field(
        alloc,
        field_ids::MANIFEST_PATH,
        b"manifest_path",
        Schema::Text,
    )?)?;
    let length = optional_type(alloc, long)?;
    fields.push(field(
        alloc,
        field_ids::MANIFEST_LENGTH,
        b"manifest_length",
        length,
    )?)?;
    let int = Schema::Int(Logical::Plain);
    fields.push(field(
        alloc,
        field_ids::PARTITION_SPEC_ID,
        b"partition_spec_id",
        int,
    )?)?;
    let int = Schema::Int(Logical::Plain);
    fields.push(field(alloc, field_ids::MANIFEST_CONTENT, b"content", int)?)?;
    let long = Schema::Long(Logical::Plain);
    fields.push(field(
        alloc,
        field_ids::MANIFEST_SEQUENCE_NUMBER,
        b"sequence_number",
        long,
    )?)?;
    let long = Schema::Long(Logical::Plain);
    fields.push(field(
        alloc,
        field_ids::MIN_SEQUENCE_NUMBER,
        b"min_sequence_number",
        long,
    )?)?;
    let long = Schema::Long(Logical::Plain);
    fields.push(field(
        alloc,
        field_ids::ADDED_SNAPSHOT_ID,
        b"added_snapshot_id",
        long,
    )?)?;
    Ok(fields)
}

fn file_count(alloc: Global, id: i32, name: &[u8]) -> Result<Field, AllocError>
    ensures { IfOk result (λ f. f ≡ Rattle.manifest_writer.specs.ListTypes.file_count id name.now) }
{
    let schema = optional_type(alloc, Schema::Int(Logical::Plain))?;
    field(alloc, id, name, schema)
}

fn row_count(alloc: Global, id: i32, name: &[u8]) -> Result<Field, AllocError>
    ensures { IfOk result (λ f. f ≡ Rattle.manifest_writer.specs.ListTypes.row_count id name.now) }
{
    let schema = optional_type(alloc, Schema::Long(Logical::Plain))?;
    field(alloc, id, name, schema)
}

fn count_fields(alloc: Global) -> Result<Vec<Field>, AllocError>
    ensures { IfOk result (λ fields. fields.items ≡ count_fields) }
{
    let mut fields = Vec::new(alloc);
    fields.push(file_count(alloc, field_ids::ADDED_FILES_COUNT, b"added_files_count")?)?;
    fields.push(file_count(
        alloc,
        field_ids::EXISTING_FILES_COUNT,
        b"existing_files_count",
    )?)?;
    fields.push(file_count(
        alloc,
        field_ids::DELETED_FILES_COUNT,
        b"deleted_files_count",
    )?)?;
    fields.push(row_count(alloc, field_ids::ADDED_ROWS_COUNT, b"added_rows_count")?)?;
    fields.push(row_count(
        alloc,
        field_ids::EXISTING_ROWS_COUNT,
        b"existing_rows_count",
    )?)?;
    fields.push(row_count(alloc, field_ids::DELETED_ROWS_COUNT, b"deleted_rows_count")?)?;
    Ok(fields)
}

fn summary_fields(alloc: Global) -> Result<Vec<Field>, AllocError>
    ensures { IfOk result (λ fields. fields.items ≡ summary_fields) }
{
    let lower = optional_type(alloc, Schema::Bytes(Logical::Plain))?;
    let upper = optional_type(alloc, Schema::Bytes(Logical::Plain))?;
    let mut fields = Vec::new(alloc);
    fields.push(field(
        alloc,
        field_ids::CONTAINS_NULL,
        b"contains_null",
        Schema::Boolean,
    )?)?;
    fields.push(field(alloc, field_ids::LOWER_BOUND, b"lower_bound", lower)?)?;
    fields.push(field(alloc, field_ids::UPPER_BOUND, b"upper_bound", upper)?)?;
    Ok(fields)
}

fn partitions_field(alloc: Global) -> Result<Field, AllocError>
    ensures { IfOk result (λ f. f ≡ partitions_field) }
{
    let summary = record_type(alloc, b"r508", summary_fields(alloc)?)?;
    let summaries = items_type(alloc, field_ids::PARTITIONS_ELEMENT, summary)?;
    let schema = optional_type(alloc, summaries)?;
    field(alloc, field_ids::PARTITIONS, b"partitions", schema)
}

pub(crate) fn list_schema(alloc: Global) -> Result<Schema, AllocError>
    ensures { IfOk result (λ s. s ≡ list_types) }
{
    let mut fields = head_fields(alloc)?;
    let mut counts = count_fields(alloc)?;
    fields.append(&mut counts)?;
    fields.push(partitions_field(alloc)?)?;
    record_type(alloc, b"manifest_file", fields)
}
