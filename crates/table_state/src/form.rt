// The tables that are read so far.
ghost use Rattle.std.specs.Prelude.{◌≡◌};
ghost use Rattle.std.specs.List.{list_all};
ghost use Rattle.table_metadata.specs.Metadata.{parts};
ghost use Rattle.table_state.specs.Live.{is_data, is_data_content};
ghost use Rattle.table_metadata.specs.References.{is_main};
ghost use Rattle.table_state.specs.Form.{
  has_form,
  is_data_manifest,
  is_data_manifest_content,
  column_in_form,
  kind_in_form,
  mode_in_form,
  schema_in_form,
  table_in_form,
  writing_in_form,
  is_unpartitioned,
  is_within_limits,
};

use manifest_files::{Content, Entry, ManifestContent, ManifestRow};
use row_values::{Column, Kind, Spec, TableSchema};
use table_metadata::{Metadata, Properties, RefItem, WriteMode};

/// The least version that a table may not have, the least sequence number, and the longest location in bytes.
const VERSION_END: u32 = 1 << 31;

const SEQUENCE_END: i64 = 1 << 62;

const LONGEST_LOCATION: usize = 4096;

/// Whether a version of a table is of the form that is read so far.
pub fn has_form(version: u32, metadata: &Metadata) -> bool
    ensures { result ≡ has_form version (parts metadata.now) }
{
    is_within_limits(version, metadata) && table_in_form(metadata)
}

fn table_in_form(metadata: &Metadata) -> bool
    ensures { result ≡ table_in_form (parts metadata.now) }
{
    are_plain_schemas(metadata.current_schema, metadata.schemas.as_slice())
        && are_unpartitioned(metadata.specs.as_slice())
        && writing_in_form(&metadata.properties)
        && are_main(metadata.refs.as_slice())
}

fn is_within_limits(version: u32, metadata: &Metadata) -> bool
    ensures { result ≡ is_within_limits version (parts metadata.now) }
{
    version < VERSION_END
        && metadata.last_sequence < SEQUENCE_END
        && metadata.location.len() <= LONGEST_LOCATION
}

fn are_plain_schemas(current: i32, schemas: &[TableSchema]) -> bool
    ensures { result ≡ list_all (schema_in_form current) schemas.now }
{
    schemas.iter().all(|schema| schema_in_form(current, schema))
}

fn schema_in_form(current: i32, schema: &TableSchema) -> bool
    ensures { result ≡ schema_in_form current schema.now }
{
    schema.id != current || columns_in_form(schema.columns.as_slice())
}

/// Whether all the columns are of a kind that is read so far.
pub fn columns_in_form(columns: &[Column]) -> bool
    ensures { result ≡ list_all column_in_form columns.now }
{
    columns.iter().all(|column| kind_in_form(column.kind))
}

fn kind_in_form(kind: Kind) -> bool
    ensures { result ≡ kind_in_form kind }
{
    matches!(kind, Kind::Long | Kind::Text)
}

fn are_unpartitioned(specs: &[Spec]) -> bool
    ensures { result ≡ list_all is_unpartitioned specs.now }
{
    specs.iter().all(|spec| spec.fields.len() == 0)
}

/// Whether every property of writes is at its default.
pub fn writing_in_form(properties: &Properties) -> bool
    ensures { result ≡ writing_in_form properties.now }
{
    mode_in_form(&properties.delete)
        && mode_in_form(&properties.update)
        && mode_in_form(&properties.merge)
        && properties.retries == 4
        && properties.least_to_merge == 100
        && properties.merge_enabled
}

fn mode_in_form(mode: &WriteMode) -> bool
    ensures { result ≡ mode_in_form mode.now }
{
    !mode.on_read && !mode.snapshot_level
}

fn are_main(refs: &[RefItem]) -> bool
    ensures { result ≡ list_all is_main refs.now }
{
    refs.iter().all(|item| item.name.as_str() == "main")
}

/// Whether all the manifests hold data files.
pub fn are_data_manifests(rows: &[ManifestRow]) -> bool
    ensures { result ≡ list_all is_data_manifest rows.now }
{
    rows.iter().all(|row| is_data_manifest(row.content))
}

fn is_data_manifest(content: ManifestContent) -> bool
    ensures { result ≡ is_data_manifest_content content }
{
    matches!(content, ManifestContent::Data)
}

/// Whether all the entries are of data files.
pub fn are_data_entries(entries: &[Entry]) -> bool
    ensures { result ≡ list_all is_data entries.now }
{
    entries.iter().all(|entry| is_data(entry.content))
}

fn is_data(content: Content) -> bool
    ensures { result ≡ is_data_content content }
{
    matches!(content, Content::Data)
}
