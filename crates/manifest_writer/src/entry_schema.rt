//! The type of the entries of a manifest.
ghost use Rattle.std.specs.Prelude.{◌≡◌, IfOk};
ghost use Rattle.manifest_writer.specs.EntryTypes.{
  optional_long,
  ids_field,
  referenced_field,
  partition_field,
  number_fields,
  file_head_fields,
  fact_fields,
  file_fields,
  file_field,
  types_with,
  entry_types,
};

use crate::fact::Fact;
use crate::fact_schema::fact_field;
use crate::part_schema::part_fields;
use avro_binary::{Field, Logical, Schema};
use manifest_files::field_ids;
use row_values::{Spec, TableSchema};
use row_writer::{field, items_type, optional_type, record_type};
use std::alloc::{AllocError, Global};

fn optional_long(alloc: Global, id: i32, name: &[u8]) -> Result<Field, AllocError>
    ensures { IfOk result (λ f. f ≡ optional_long id name.now) }
{
    let schema = optional_type(alloc, Schema::Long(Logical::Plain))?;
    field(alloc, id, name, schema)
}

fn ids_field(alloc: Global) -> Result<Field, AllocError>
    ensures { IfOk result (λ f. f ≡ ids_field) }
{
    let ids = items_type(
        alloc,
        field_ids::EQUALITY_IDS_ELEMENT,
        Schema::Int(Logical::Plain),
    )?;
    let schema = optional_type(alloc, ids)?;
    field(alloc, field_ids::EQUALITY_IDS, b"equality_ids", schema)
}

fn referenced_field(alloc: Global) -> Result<Field, AllocError>
    ensures { IfOk result (λ f. f ≡ referenced_field) }
{
    let schema = optional_type(alloc, Schema::Text)?;
    field(
        alloc,
        field_ids::REFERENCED_DATA_FILE,
        b"referenced_data_file",
        schema,
    )
}

fn partition_field(alloc: Global, parts: Vec<Field>) -> Result<Field, AllocError>
    ensures { IfOk result (λ f. f ≡ partition_field parts.items) }
{
    let schema = record_type(alloc, b"r102", parts)?;
    field(alloc, field_ids::PARTITION, b"partition", schema)
}

fn number_fields(alloc: Global) -> Result<Vec<Field>, AllocError>
    ensures { IfOk result (λ fields. fields.items ≡ number_fields) }
{
    let mut fields = Vec::new(alloc);
    fields.push(field(
        alloc,
        field_ids::STATUS,
        b"status",
        Schema::Int(Logical::Plain),
    )?)?;
    fields.push(optional_long(alloc, field_ids::SNAPSHOT_ID, b"snapshot_id")?)?;
    fields.push(optional_long(alloc, field_ids::SEQUENCE_NUMBER, b"sequence_number")?)?;
    fields.push(optional_long(
        alloc,
        field_ids::FILE_SEQUENCE_NUMBER,
        b"file_sequence_number",
    )?)?;
    Ok(fields)
}

fn file_head_fields(alloc: Global, parts: Vec<Field>) -> Result<Vec<Field>, AllocError>
    ensures { IfOk result (λ fields. fields.items ≡ file_head_fields parts.items) }
{
    let mut fields = Vec::new(alloc);
    fields.push(field(
        alloc,
        field_ids::CONTENT,
        b"content",
        Schema::Int(Logical::Plain),
    )?)?;
    fields.push(field(alloc, field_ids::FILE_PATH, b"file_path", Schema::Text)?)?;
    fields.push(field(alloc, field_ids::FILE_FORMAT, b"file_format", Schema::Text)?)?;
    fields.push(partition_field(alloc, parts)?)?;
    Ok(fields)
}

fn fact_fields(alloc: Global) -> Result<Vec<Field>, AllocError>
    ensures { IfOk result (λ fields. fields.items ≡ fact_fields) }
{
    let mut fields = Vec::new(alloc);
    fields.push(fact_field(alloc, Fact::Values)?)?;
    fields.push(fact_field(alloc, Fact::Nulls)?)?;
    fields.push(fact_field(alloc, Fact::Lower)?)?;
    fields.push(fact_field(alloc, Fact::Upper)?)?;
    Ok(fields)
}

fn file_fields(alloc: Global, parts: Vec<Field>) -> Result<Vec<Field>, AllocError>
    ensures { IfOk result (λ fields. fields.items ≡ file_fields parts.items) }
{
    let mut fields = file_head_fields(alloc, parts)?;
    let count = Schema::Long(Logical::Plain);
    fields.push(field(alloc, field_ids::RECORD_COUNT, b"record_count", count)?)?;
    let size = Schema::Long(Logical::Plain);
    fields.push(field(
        alloc,
        field_ids::FILE_SIZE_IN_BYTES,
        b"file_size_in_bytes",
        size,
    )?)?;
    let mut facts = fact_fields(alloc)?;
    fields.append(&mut facts)?;
    fields.push(ids_field(alloc)?)?;
    fields.push(referenced_field(alloc)?)?;
    Ok(fields)
}

fn file_field(alloc: Global, parts: Vec<Field>) -> Result<Field, AllocError>
    ensures { IfOk result (λ f. f ≡ file_field parts.items) }
{
    let schema = record_type(alloc, b"r2", file_fields(alloc, parts)?)?;
    field(alloc, field_ids::DATA_FILE, b"data_file", schema)
}

fn types_with(alloc: Global, parts: Vec<Field>) -> Result<Schema, AllocError>
    ensures { IfOk result (λ s. s ≡ types_with parts.items) }
{
    let mut fields = number_fields(alloc)?;
    fields.push(file_field(alloc, parts)?)?;
    record_type(alloc, b"manifest_entry", fields)
}

pub(crate) fn entry_schema(
    alloc: Global,
    spec: &Spec,
    schema: &TableSchema,
) -> Result<Schema, AllocError>
    ensures { IfOk result (λ s. s ≡ entry_types spec.now schema.now) }
{
    let parts = part_fields(alloc, schema.columns.as_slice(), spec.fields.as_slice())?;
    types_with(alloc, parts)
}
