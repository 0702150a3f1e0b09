// Reads the rows of a table of the form that is read so far, file by file in the order in which a file out of form is
// named.
ghost use Rattle.std.specs.Prelude.{◌≡◌, ◌≢◌, ◌<◌, [], Ok, Err, filter, IfOk, IfErr, IsErrOf, OnOk};
ghost use Rattle.std.specs.List.{list_all};
ghost use Rattle.std.specs.Option.{ForSome};
ghost use Rattle.plain_types.specs.Causes.{Rose};
ghost use Rattle.plain_types.specs.Steps.{or_fault};
ghost use Rattle.std.specs.FinMap as map;
ghost use Rattle.table_metadata.specs.Metadata.{parts};
ghost use Rattle.table_state.specs.Files.{version_at};
ghost use Rattle.table_state.specs.Live.{is_data, is_live};
ghost use Rattle.table_state.specs.Form.{is_data_manifest};
ghost use Rattle.dml_program.specs.Beginning.{opened_at};
ghost use Rattle.dml_program.specs.Opening.{IsRefusal, Refuses, RefusesTable, load_status, table_rows};
ghost use Rattle.dml_program.specs.TableInForm.{
  if_form,
  if_once,
  entries_in_form,
  file_in_form,
  list_in_form,
  main_in_form,
  manifest_in_form,
  metadata_in_form,
  rows_in_form,
  snapshot_in_form,
  version_in_form,
};

use crate::status::{Status, TableKind};
use crate::twice::path_twice;
use manifest_files::{Entry, ManifestRow};
use plain_types::{List, Text};
use row_values::Row;
use std::alloc::Global;
use store_core::{Blob, ReadAnswer, Store};
use table_metadata::{Metadata, MetadataFault, Snapshot, read_metadata, snapshot_with};
use table_names::{current_version, version_name};
use table_state::{
    LoadFault, are_data_entries, are_data_manifests, has_form, head_of, read_data_file_at,
    read_list_at, read_manifest_at,
};

// The status of a call that could not read the file with this path.
fn load_status(path: Text, fault: LoadFault) -> Status
    ensures { result ≡ load_status path fault }
{
    match fault {
        LoadFault::Store => Status::StoreFailed,
        LoadFault::Memory => Status::Memory,
        _other => later(path),
    }
}

/// The status of a file that is missing or not of a form that is read yet.
pub(crate) fn later(path: Text) -> Status
    ensures { result ≡ Status.TableBad TableKind.Later path }
{
    Status::TableBad {
        kind: TableKind::Later,
        path,
    }
}

#[tactic(auto, unfolding(crate::specs::TableInForm::list_in_form))]
fn list_in_form<S: Store>(
    alloc: Global,
    store: &mut S,
    table: &str,
    metadata: &Metadata,
    path: &str,
) -> Result<List<ManifestRow>, Status>
    ensures found { IfOk result (λ rows. ForSome (S.files store.old) (λ files. list_in_form table.now (parts metadata.now) path.now files ≡ Ok rows)) }
    ensures refused { IfErr result (λ status. ForSome (S.files store.old)
        (λ files. Refuses (list_in_form table.now (parts metadata.now) path.now files) status)) }
    ensures kind { IfErr result IsRefusal }
    ensures store_failed { IsErrOf result Status.StoreFailed → Rose (S.faults store.old) (S.faults store.new) × (0 < S.unsettled store.new) }
    ensures quiet { OnOk result (S.faults store.new ≡ S.faults store.old) }
    ensures files { S.files store.new ≡ S.files store.old }
{
    let name = Text::copy_of(alloc, path)?;
    match read_list_at(alloc, store, table, metadata, path) {
        Ok(rows) => data_manifests(name, rows),
        Err(fault) => Err(load_status(name, fault)),
    }
}

fn data_manifests(path: Text, rows: List<ManifestRow>) -> Result<List<ManifestRow>, Status>
    ensures found { IfOk result (λ found. if_form path rows (list_all is_data_manifest rows) ≡ Ok found) }
    ensures refused { IfErr result (λ status. (status ≡ Status.TableBad TableKind.Later path)
        × (if_form path rows (list_all is_data_manifest rows) ≡ Err path)) }
{
    if are_data_manifests(rows.as_slice()) {
        Ok(rows)
    } else {
        Err(later(path))
    }
}

// The live entries of the manifest that a row names.
#[tactic(auto, unfolding(crate::specs::TableInForm::manifest_in_form))]
fn manifest_in_form<S: Store>(
    alloc: Global,
    store: &mut S,
    table: &str,
    metadata: &Metadata,
    row: &ManifestRow,
) -> Result<Vec<Entry>, Status>
    ensures found { IfOk result (λ entries. ForSome (S.files store.old)
        (λ files. manifest_in_form table.now (parts metadata.now) row.now files ≡ Ok entries.items)) }
    ensures refused { IfErr result (λ status. ForSome (S.files store.old)
        (λ files. Refuses (manifest_in_form table.now (parts metadata.now) row.now files) status)) }
    ensures kind { IfErr result IsRefusal }
    ensures store_failed { IsErrOf result Status.StoreFailed → Rose (S.faults store.old) (S.faults store.new) × (0 < S.unsettled store.new) }
    ensures quiet { OnOk result (S.faults store.new ≡ S.faults store.old) }
    ensures files { S.files store.new ≡ S.files store.old }
{
    let name = Text::copy_of(alloc, row.manifest_path.as_str())?;
    match read_manifest_at(alloc, store, table, metadata, row) {
        Ok(entries) => data_entries(name, entries),
        Err(fault) => Err(load_status(name, fault)),
    }
}

fn data_entries(path: Text, entries: List<Entry>) -> Result<Vec<Entry>, Status>
    ensures found { IfOk result (λ live. if_form path (filter is_live entries) (list_all is_data entries) ≡ Ok live.items) }
    ensures refused { IfErr result (λ status. (status ≡ Status.TableBad TableKind.Later path)
        × (if_form path (filter is_live entries) (list_all is_data entries) ≡ Err path)) }
{
    if are_data_entries(entries.as_slice()) {
        Ok(live_entries(entries))
    } else {
        Err(later(path))
    }
}

fn live_entries(entries: List<Entry>) -> Vec<Entry>
    ensures { result.items ≡ filter is_live entries }
{
    let mut live = entries.into_vec();
    live.retain(|entry| entry.is_live());
    live
}

// The live entries of the manifests.
#[tactic(auto, unfolding(crate::specs::TableInForm::entries_in_form))]
fn entries_in_form<S: Store>(
    alloc: Global,
    store: &mut S,
    table: &str,
    metadata: &Metadata,
    rows: &[ManifestRow],
) -> Result<Vec<Entry>, Status>
    ensures found { IfOk result (λ entries. ForSome (S.files store.old)
        (λ files. entries_in_form table.now (parts metadata.now) [] rows.now files ≡ Ok entries.items)) }
    ensures refused { IfErr result (λ status. ForSome (S.files store.old)
        (λ files. Refuses (entries_in_form table.now (parts metadata.now) [] rows.now files) status)) }
    ensures kind { IfErr result IsRefusal }
    ensures store_failed { IsErrOf result Status.StoreFailed → Rose (S.faults store.old) (S.faults store.new) × (0 < S.unsettled store.new) }
    ensures quiet { OnOk result (S.faults store.new ≡ S.faults store.old) }
    ensures files { S.files store.new ≡ S.files store.old }
{
    let mut entries = Vec::new(alloc);
    let mut rest = rows;
    while let [row, after @ ..] = rest {
        let mut more = manifest_in_form(alloc, store, table, metadata, row)?;
        entries.append(&mut more)?;
        rest = after;
    }
    Ok(entries)
}

// The rows of a data file.
fn file_in_form<S: Store>(
    alloc: Global,
    store: &mut S,
    table: &str,
    metadata: &Metadata,
    path: &str,
) -> Result<Vec<Row>, Status>
    ensures found { IfOk result (λ rows. ForSome (S.files store.old) (λ files. file_in_form table.now (parts metadata.now) path.now files ≡ Ok rows.items)) }
    ensures refused { IfErr result (λ status. ForSome (S.files store.old)
        (λ files. Refuses (file_in_form table.now (parts metadata.now) path.now files) status)) }
    ensures kind { IfErr result IsRefusal }
    ensures store_failed { IsErrOf result Status.StoreFailed → Rose (S.faults store.old) (S.faults store.new) × (0 < S.unsettled store.new) }
    ensures quiet { OnOk result (S.faults store.new ≡ S.faults store.old) }
    ensures files { S.files store.new ≡ S.files store.old }
{
    let name = Text::copy_of(alloc, path)?;
    match read_data_file_at(alloc, store, table, metadata, path) {
        Ok(rows) => Ok(rows.into_vec()),
        Err(fault) => Err(load_status(name, fault)),
    }
}

// The rows of the data files.
#[tactic(auto, unfolding(crate::specs::TableInForm::rows_in_form))]
fn rows_in_form<S: Store>(
    alloc: Global,
    store: &mut S,
    table: &str,
    metadata: &Metadata,
    entries: &[Entry],
) -> Result<Vec<Row>, Status>
    ensures found { IfOk result (λ rows. ForSome (S.files store.old)
        (λ files. rows_in_form table.now (parts metadata.now) [] entries.now files ≡ Ok rows.items)) }
    ensures refused { IfErr result (λ status. ForSome (S.files store.old)
        (λ files. Refuses (rows_in_form table.now (parts metadata.now) [] entries.now files) status)) }
    ensures kind { IfErr result IsRefusal }
    ensures store_failed { IsErrOf result Status.StoreFailed → Rose (S.faults store.old) (S.faults store.new) × (0 < S.unsettled store.new) }
    ensures quiet { OnOk result (S.faults store.new ≡ S.faults store.old) }
    ensures files { S.files store.new ≡ S.files store.old }
{
    let mut rows = Vec::new(alloc);
    let mut rest = entries;
    while let [entry, after @ ..] = rest {
        let mut more = file_in_form(alloc, store, table, metadata, entry.path.as_str())?;
        rows.append(&mut more)?;
        rest = after;
    }
    Ok(rows)
}

// The rows of these entries, unless two of them have one path.
fn if_once(alloc: Global, entries: &[Entry], rows: Vec<Row>) -> Result<Vec<Row>, Status>
    ensures found { IfOk result (λ found. if_once entries.now rows.items ≡ Ok found.items) }
    ensures refused { IfErr result (Refuses (if_once entries.now rows.items)) }
    ensures kind { IfErr result IsRefusal }
    ensures inside { IsErrOf result Status.StoreFailed → ⊥ }
{
    match path_twice(alloc, entries)? {
        Some(path) => Err(later(Text::copy_of(alloc, path)?)),
        None => Ok(rows),
    }
}

// The rows of a snapshot.
#[tactic(auto, unfolding(crate::specs::TableInForm::snapshot_in_form))]
fn snapshot_in_form<S: Store>(
    alloc: Global,
    store: &mut S,
    table: &str,
    metadata: &Metadata,
    snapshot: &Snapshot,
) -> Result<Vec<Row>, Status>
    ensures found { IfOk result (λ rows. ForSome (S.files store.old)
        (λ files. snapshot_in_form table.now (parts metadata.now) snapshot.now files ≡ Ok rows.items)) }
    ensures refused { IfErr result (λ status. ForSome (S.files store.old)
        (λ files. Refuses (snapshot_in_form table.now (parts metadata.now) snapshot.now files) status)) }
    ensures kind { IfErr result IsRefusal }
    ensures store_failed { IsErrOf result Status.StoreFailed → Rose (S.faults store.old) (S.faults store.new) × (0 < S.unsettled store.new) }
    ensures quiet { OnOk result (S.faults store.new ≡ S.faults store.old) }
    ensures files { S.files store.new ≡ S.files store.old }
{
    let rows = list_in_form(alloc, store, table, metadata, snapshot.list.as_str())?;
    let entries = entries_in_form(alloc, store, table, metadata, rows.as_slice())?;
    let found = rows_in_form(alloc, store, table, metadata, entries.as_slice())?;
    if_once(alloc, entries.as_slice(), found)
}

// The rows of `main`, of a version whose metadata has this name.
#[tactic(auto, unfolding(crate::specs::TableInForm::main_in_form))]
fn main_in_form<S: Store>(
    alloc: Global,
    store: &mut S,
    table: &str,
    metadata: &Metadata,
    name: &str,
) -> Result<Vec<Row>, Status>
    ensures found { IfOk result (λ rows. ForSome (S.files store.old) (λ files. main_in_form name.now table.now (parts metadata.now) files ≡ Ok rows.items)) }
    ensures refused { IfErr result (λ status. ForSome (S.files store.old)
        (λ files. Refuses (main_in_form name.now table.now (parts metadata.now) files) status)) }
    ensures kind { IfErr result IsRefusal }
    ensures store_failed { IsErrOf result Status.StoreFailed → Rose (S.faults store.old) (S.faults store.new) × (0 < S.unsettled store.new) }
    ensures quiet { OnOk result (S.faults store.new ≡ S.faults store.old) }
    ensures files { S.files store.new ≡ S.files store.old }
{
    let Some(id) = head_of("main", metadata.refs.as_slice()) else {
        return Ok(Vec::new(alloc));
    };
    match snapshot_with(id, metadata.snapshots.as_slice()) {
        Some(snapshot) => snapshot_in_form(alloc, store, table, metadata, snapshot),
        None => Err(later(Text::copy_of(alloc, name)?)),
    }
}

// The metadata that the bytes of a version are, which has this name.
#[tactic(auto, unfolding(crate::specs::TableInForm::metadata_in_form))]
fn metadata_in_form(
    alloc: Global,
    name: &str,
    version: u32,
    bytes: &[u8],
) -> Result<Metadata, Status>
    ensures found { IfOk result (λ m. metadata_in_form name.now version bytes.now ≡ Ok (parts m)) }
    ensures refused { IfErr result (Refuses (metadata_in_form name.now version bytes.now)) }
    ensures kind { IfErr result IsRefusal }
    ensures inside { IsErrOf result Status.StoreFailed → ⊥ }
{
    let path = Text::copy_of(alloc, name)?;
    let metadata = match read_metadata(alloc, bytes) {
        Ok(metadata) => metadata,
        Err(MetadataFault::Memory) => return Err(Status::Memory),
        Err(_other) => return Err(later(path)),
    };
    if has_form(version, &metadata) {
        Ok(metadata)
    } else {
        Err(later(path))
    }
}

// The bytes under a name of the store.
fn read_name<S: Store>(alloc: Global, store: &mut S, name: &str) -> Result<Blob, Status>
    ensures found { IfOk result (λ bytes. ForSome (S.files store.old) (λ files. or_fault name.now (map.get files name.now) ≡ Ok bytes)) }
    ensures refused { IfErr result (λ status. ForSome (S.files store.old) (λ files. Refuses (or_fault name.now (map.get files name.now)) status)) }
    ensures kind { IfErr result IsRefusal }
    ensures store_failed { IsErrOf result Status.StoreFailed → Rose (S.faults store.old) (S.faults store.new) × (0 < S.unsettled store.new) }
    ensures quiet { OnOk result (S.faults store.new ≡ S.faults store.old) }
    ensures files { S.files store.new ≡ S.files store.old }
{
    match store.read(alloc, name) {
        Ok(ReadAnswer::Found(bytes)) => Ok(bytes),
        Ok(ReadAnswer::Missing) => Err(later(Text::copy_of(alloc, name)?)),
        Err(fault) => Err(Status::from(fault)),
    }
}

/// A table whose rows can be read.
#[derive(Drop)]
pub(crate) struct Opened {
    pub version: u32,
    pub metadata: Metadata,
    pub rows: Vec<Row>,
}

#[tactic(auto, unfolding(crate::specs::TableInForm::version_in_form))]
fn version_in_form<S: Store>(
    alloc: Global,
    store: &mut S,
    table: &str,
    version: u32,
) -> Result<Opened, Status>
    ensures found { IfOk result (λ opened. ForSome (S.files store.old) (λ files. version_in_form table.now version files ≡ Ok opened.rows.items)) }
    ensures metadata { IfOk result (λ opened. ForSome (S.files store.old) (λ files. version_at table.now version files ≡ Ok (parts opened.metadata))) }
    ensures version { IfOk result (λ opened. opened.version ≡ version) }
    ensures refused { IfErr result (λ status. ForSome (S.files store.old) (λ files. Refuses (version_in_form table.now version files) status)) }
    ensures kind { IfErr result IsRefusal }
    ensures store_failed { IsErrOf result Status.StoreFailed → Rose (S.faults store.old) (S.faults store.new) × (0 < S.unsettled store.new) }
    ensures quiet { OnOk result (S.faults store.new ≡ S.faults store.old) }
    ensures files { S.files store.new ≡ S.files store.old }
{
    let name = version_name(alloc, table, version)?;
    let bytes = read_name(alloc, store, name.as_str())?;
    let metadata = metadata_in_form(alloc, name.as_str(), version, bytes.as_slice())?;
    let rows = main_in_form(alloc, store, table, &metadata, name.as_str())?;
    Ok(Opened {
        version,
        metadata,
        rows,
    })
}

/// The rows of `main` at a table's current version, or what is wrong with the table.
pub(crate) fn table_rows<S: Store>(
    alloc: Global,
    store: &mut S,
    table: &str,
) -> Result<Vec<Row>, Status>
    ensures found { IfOk result (λ rows. ForSome (S.files store.old) (λ files. table_rows table.now files ≡ Ok rows.items)) }
    ensures refused { IfErr result (λ status. ForSome (S.files store.old) (λ files. RefusesTable (table_rows table.now files) status)) }
    ensures kind { IfErr result IsRefusal }
    ensures store_failed { IsErrOf result Status.StoreFailed → Rose (S.faults store.old) (S.faults store.new) × (0 < S.unsettled store.new) }
    ensures quiet { OnOk result (S.faults store.new ≡ S.faults store.old) }
    ensures files { S.files store.new ≡ S.files store.old }
{
    match open_table(alloc, store, table) {
        Ok(opened) => Ok(rows_of(opened)),
        Err(status) => Err(status),
    }
}

fn rows_of(opened: Opened) -> Vec<Row>
    ensures { result ≡ opened.rows }
{
    let Opened { rows, .. } = opened;
    rows
}

/// A table's current version and its rows, or what is wrong with the table.
#[tactic(auto, unfolding(crate::specs::Opening::table_rows))]
pub(crate) fn open_table<S: Store>(
    alloc: Global,
    store: &mut S,
    table: &str,
) -> Result<Opened, Status>
    ensures found { IfOk result (λ opened. ForSome (S.files store.old) (λ files. table_rows table.now files ≡ Ok opened.rows.items)) }
    ensures opened { IfOk result (λ opened. ForSome (S.files store.old) (λ files. opened_at table.now files ≡ Ok (opened.version, parts opened.metadata))) }
    ensures refused { IfErr result (λ status. ForSome (S.files store.old) (λ files. RefusesTable (table_rows table.now files) status)) }
    ensures kind { IfErr result IsRefusal }
    ensures store_failed { IsErrOf result Status.StoreFailed → Rose (S.faults store.old) (S.faults store.new) × (0 < S.unsettled store.new) }
    ensures quiet { OnOk result (S.faults store.new ≡ S.faults store.old) }
    ensures files { S.files store.new ≡ S.files store.old }
{
    match current_version(alloc, store, table) {
        Ok(Some(version)) => version_in_form(alloc, store, table, version),
        Ok(None) => Err(Status::TableBad {
            kind: TableKind::NoVersion,
            path: Text::copy_of(alloc, table)?,
        }),
        Err(fault) => Err(Status::from(fault)),
    }
}
