// One file of a table at a time.
ghost use Rattle.std.specs.Prelude.{◌≡◌, ◌<◌, ◌≤◌, ◌+◌, IfOk, IsErrOf};
ghost use Rattle.std.specs.Option.{ForSome};
ghost use Rattle.plain_types.specs.Answers.{Answers, AnswersTold};
ghost use Rattle.plain_types.specs.Causes.{HasCause};
ghost use Rattle.table_metadata.specs.Metadata.{parts};
ghost use Rattle.table_state.specs.Files.{
  AreCurrentRows,
  bytes_under,
  current_schema,
  data_file_at,
  entries_in,
  file_at,
  list_at,
  list_in,
  manifest_at,
  rows_in,
};

use crate::load_fault::{LoadFault, container_fault, manifest_fault, rows_fault};
use avro_container::read_container;
use avro_rows::read_rows;
use manifest_files::{Entry, ManifestFault, ManifestRow, read_list, read_manifest};
use plain_types::{List, Text};
use row_values::{Row, TableSchema};
use std::alloc::Global;
use store_core::{Blob, ReadAnswer, Store};
use table_metadata::{Metadata, MetadataFault, current_schema, spec_with};
use table_names::name_of;

// The bytes under a name of the store, which the table knows by this path.
#[tactic(auto, using(crate::proofs::ReadCounts::one_more))]
fn read_name<S: Store>(
    alloc: Global,
    store: &mut S,
    path: &str,
    name: &str,
) -> Result<Blob, LoadFault>
    ensures answers { AnswersTold LoadFault.Store LoadFault.Memory (λ bytes. bytes) result (S.files store.old) (λ files. bytes_under path.now name.now files) }
    ensures files { S.files store.new ≡ S.files store.old }
    ensures unsettled { IsErrOf result LoadFault.Store → 0 < S.unsettled store.new }
    ensures cause { HasCause LoadFault.Store LoadFault.Memory (S.faults store.old) (S.faults store.new) result }
    ensures reads { S.reads store.new ≤ S.reads store.old + 1 }
{
    match store.read(alloc, name) {
        Ok(ReadAnswer::Found(bytes)) => Ok(bytes),
        Ok(ReadAnswer::Missing) => Err(LoadFault::Missing(Text::copy_of(alloc, path)?)),
        Err(fault) => Err(LoadFault::from(fault)),
    }
}

/// The bytes of a path, of a table with this location in this folder.
#[tactic(auto, unfolding(crate::specs::Files::file_at))]
pub fn read_file<S: Store>(
    alloc: Global,
    store: &mut S,
    table: &str,
    location: &str,
    path: &str,
) -> Result<Blob, LoadFault>
    ensures answers { AnswersTold LoadFault.Store LoadFault.Memory (λ bytes. bytes) result (S.files store.old) (λ files. file_at table.now location.now path.now files) }
    ensures files { S.files store.new ≡ S.files store.old }
    ensures unsettled { IsErrOf result LoadFault.Store → 0 < S.unsettled store.new }
    ensures cause { HasCause LoadFault.Store LoadFault.Memory (S.faults store.old) (S.faults store.new) result }
    ensures reads { S.reads store.new ≤ S.reads store.old + 1 }
{
    match name_of(alloc, table, location, path)? {
        Some(name) => read_name(alloc, store, path, name.as_str()),
        None => Err(LoadFault::Outside(Text::copy_of(alloc, path)?)),
    }
}

// The current schema, which all metadata that was read has.
fn needed_schema(alloc: Global, metadata: &Metadata) -> Result<&TableSchema, LoadFault>
    ensures answers { Answers LoadFault.Memory (λ schema. schema.now) result (current_schema (parts metadata.now)) }
    ensures inside { IsErrOf result LoadFault.Store → ⊥ }
{
    match current_schema(metadata) {
        Some(schema) => Ok(schema),
        None => {
            let key = Text::copy_of(alloc, "current-schema-id")?;
            Err(LoadFault::Metadata(MetadataFault::Shape(key)))
        }
    }
}

fn list_in(alloc: Global, path: &str, bytes: &[u8]) -> Result<List<ManifestRow>, LoadFault>
    ensures answers { Answers LoadFault.Memory (λ rows. rows) result (list_in path.now bytes.now) }
    ensures inside { IsErrOf result LoadFault.Store → ⊥ }
{
    match read_list(alloc, bytes) {
        Ok(rows) => Ok(rows),
        Err(fault) => Err(manifest_fault(Text::copy_of(alloc, path)?, fault)),
    }
}

/// The rows of the manifest list with this path.
#[tactic(auto, unfolding(crate::specs::Files::list_at))]
pub fn read_list_at<S: Store>(
    alloc: Global,
    store: &mut S,
    table: &str,
    metadata: &Metadata,
    path: &str,
) -> Result<List<ManifestRow>, LoadFault>
    ensures answers { AnswersTold LoadFault.Store LoadFault.Memory (λ rows. rows)
        result (S.files store.old) (λ files. list_at table.now (parts metadata.now) path.now files) }
    ensures files { S.files store.new ≡ S.files store.old }
    ensures unsettled { IsErrOf result LoadFault.Store → 0 < S.unsettled store.new }
    ensures cause { HasCause LoadFault.Store LoadFault.Memory (S.faults store.old) (S.faults store.new) result }
    ensures reads { S.reads store.new ≤ S.reads store.old + 1 }
{
    match read_file(alloc, store, table, metadata.location.as_str(), path) {
        Ok(bytes) => list_in(alloc, path, bytes.as_slice()),
        Err(fault) => Err(fault),
    }
}

#[tactic(auto, unfolding(crate::specs::Files::entries_in))]
fn entries_in(
    alloc: Global,
    metadata: &Metadata,
    row: &ManifestRow,
    bytes: &[u8],
) -> Result<List<Entry>, LoadFault>
    ensures answers { Answers LoadFault.Memory (λ entries. entries) result (entries_in (parts metadata.now) row.now bytes.now) }
    ensures inside { IsErrOf result LoadFault.Store → ⊥ }
{
    let Some(spec) = spec_with(row.partition_spec_id, metadata.specs.as_slice()) else {
        let path = Text::copy_of(alloc, row.manifest_path.as_str())?;
        return Err(LoadFault::Manifest(path, ManifestFault::Spec(row.partition_spec_id)));
    };
    let schema = needed_schema(alloc, metadata)?;
    match read_manifest(alloc, bytes, row, spec, schema) {
        Ok(entries) => Ok(entries),
        Err(fault) => {
            let path = Text::copy_of(alloc, row.manifest_path.as_str())?;
            Err(manifest_fault(path, fault))
        }
    }
}

/// The entries of the manifest that a row of a list names, with the numbers that they inherit.
#[tactic(auto, unfolding(crate::specs::Files::manifest_at))]
pub fn read_manifest_at<S: Store>(
    alloc: Global,
    store: &mut S,
    table: &str,
    metadata: &Metadata,
    row: &ManifestRow,
) -> Result<List<Entry>, LoadFault>
    ensures answers { AnswersTold LoadFault.Store LoadFault.Memory (λ entries. entries)
        result (S.files store.old) (λ files. manifest_at table.now (parts metadata.now) row.now files) }
    ensures files { S.files store.new ≡ S.files store.old }
    ensures unsettled { IsErrOf result LoadFault.Store → 0 < S.unsettled store.new }
    ensures cause { HasCause LoadFault.Store LoadFault.Memory (S.faults store.old) (S.faults store.new) result }
    ensures reads { S.reads store.new ≤ S.reads store.old + 1 }
{
    match read_file(
        alloc,
        store,
        table,
        metadata.location.as_str(),
        row.manifest_path.as_str(),
    ) {
        Ok(bytes) => entries_in(alloc, metadata, row, bytes.as_slice()),
        Err(fault) => Err(fault),
    }
}

#[tactic(auto, unfolding(crate::specs::Files::rows_in))]
fn rows_in(
    alloc: Global,
    metadata: &Metadata,
    path: &str,
    bytes: &[u8],
) -> Result<List<Row>, LoadFault>
    ensures answers { Answers LoadFault.Memory (λ rows. rows) result (rows_in (parts metadata.now) path.now bytes.now) }
    ensures rows { IfOk result (λ rows. AreCurrentRows (parts metadata.now) rows) }
    ensures inside { IsErrOf result LoadFault.Store → ⊥ }
{
    let container = match read_container(alloc, bytes) {
        Ok(container) => container,
        Err(fault) => return Err(container_fault(Text::copy_of(alloc, path)?, fault)),
    };
    let schema = needed_schema(alloc, metadata)?;
    match read_rows(alloc, &container, schema) {
        Ok(rows) => Ok(rows),
        Err(fault) => Err(rows_fault(Text::copy_of(alloc, path)?, fault)),
    }
}

/// The rows of the data file with this path, in the columns of the current schema.
#[tactic(auto, unfolding(crate::specs::Files::data_file_at))]
pub fn read_data_file_at<S: Store>(
    alloc: Global,
    store: &mut S,
    table: &str,
    metadata: &Metadata,
    path: &str,
) -> Result<List<Row>, LoadFault>
    ensures answers { AnswersTold LoadFault.Store LoadFault.Memory (λ rows. rows)
        result (S.files store.old) (λ files. data_file_at table.now (parts metadata.now) path.now files) }
    ensures rows { IfOk result (λ rows. AreCurrentRows (parts metadata.now) rows) }
    ensures files { S.files store.new ≡ S.files store.old }
    ensures unsettled { IsErrOf result LoadFault.Store → 0 < S.unsettled store.new }
    ensures cause { HasCause LoadFault.Store LoadFault.Memory (S.faults store.old) (S.faults store.new) result }
    ensures reads { S.reads store.new ≤ S.reads store.old + 1 }
{
    match read_file(alloc, store, table, metadata.location.as_str(), path) {
        Ok(bytes) => rows_in(alloc, metadata, path, bytes.as_slice()),
        Err(fault) => Err(fault),
    }
}
