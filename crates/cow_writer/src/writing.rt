//! Writes the new data files of a statement.
ghost use Rattle.std.specs.Prelude.{◌≡◌, ◌≤◌, ◌<◌, ◌+◌, ◌^◌, ◌⊎◌, true, [], length, map, is_some, option_map, IfErr, IfOk, IsErrOf, IsTrue, OnOk};
ghost use Rattle.std.specs.List.{list_all};
ghost use Rattle.std.specs.Option.{ForSome};
ghost use Rattle.plain_types.specs.Causes.{HasCause};
ghost use Rattle.row_values.specs.Rows.{AreRows, is_row};
ghost use Rattle.store_core.specs.Files.{KeepsFiles, with_file};
ghost use Rattle.table_names.specs.FileNames.{NoneFrom};
ghost use Rattle.row_writer.specs.RowsText.{rows_text};
ghost use Rattle.change_sets.specs.Scanned.{entry_of};
ghost use Rattle.cow_writer.specs.Copies.{
  behind,
  change_of,
  entries_from,
  entry_at,
  files_after,
  files_from,
  next_name,
  pieces_in,
  schema_of,
  stats_of,
};
ghost use Rattle.change_sets.specs.Deciding.{written_of};
ghost use Rattle.cow_writer.specs.PutNames.{HasRoom, PutsDataFiles};
ghost use Rattle.cow_writer.specs.Reading.{AreShort};

use crate::touched::{removed_files, written_pieces};
use change_sets::{ChangeSet, Decisions, ScannedFile, copy_entry};
use kind_values::Stats;
use manifest_files::{Content, Entry};
use plain_types::{List, Text};
use row_values::{Column, Row, TableSchema};
use row_writer::write_rows;
use sql_predicates::Pred;
use std::alloc::{AllocError, Global};
use store_core::Store;
use table_metadata::{Metadata, schema_with};
use table_names::{Folder, Names, folder_of, put_next};
use table_state::{LoadFault, State};

/// The current schema, or this one, without columns.
pub fn schema_of<'a>(metadata: &'a Metadata, none: &'a TableSchema) -> &'a TableSchema
    requires { none.now ≡ record { id = metadata.now.current_schema; columns = [] } }
    ensures { result.now ≡ schema_of metadata.now }
{
    match schema_with(metadata.current_schema, metadata.schemas.as_slice()) {
        Some(schema) => schema,
        None => none,
    }
}

/// What is known of the columns of a file with these rows.
fn stats_of(alloc: Global, columns: &[Column], rows: &[Row]) -> Result<Stats, AllocError>
    ensures { IfOk result (λ stats. stats ≡ stats_of columns.now rows.now) }
{
    Ok(Stats {
        columns: List::new(alloc),
    })
}

/// The entry of a file of so many bytes, which is put under the next name.
fn entry_at(
    alloc: Global,
    metadata: &Metadata,
    schema: &TableSchema,
    names: &Names,
    rows: &[Row],
    bytes: &[u8],
) -> Result<Entry, AllocError>
    requires schema { schema.now ≡ schema_of metadata.now }
    requires bytes { bytes.now ≡ rows_text schema.now.columns rows.now }
    ensures { IfOk result (λ entry. entry ≡ entry_at metadata.now names.now rows.now) }
{
    let path = names.data_path(alloc, folder_of(metadata.location.as_str()))?;
    Ok(Entry {
        status: 1,
        snapshot: 0,
        seq: 0,
        file_seq: 0,
        content: Content::Data,
        path: Text::from_string(path),
        spec: metadata.default_spec,
        partition: List::new(alloc),
        count: rows.len() as u64,
        size: bytes.len() as u64,
        stats: stats_of(alloc, schema.columns.as_slice(), rows)?,
        equality_ids: List::new(alloc),
        referenced: None,
    })
}

/// Writes a file with these rows.
fn write_piece<S: Store>(
    alloc: Global,
    store: &mut S,
    state: &State,
    schema: &TableSchema,
    names: &mut Names,
    rows: &[Row],
) -> Result<Entry, LoadFault>
    requires schema { schema.now ≡ schema_of state.now.metadata }
    requires rows { AreRows schema.now.columns rows.now }
    requires free { ForSome (S.files store.old) (NoneFrom state.now.table names.old.run names.old.session names.old.next) }
    requires room { names.old.next + 1 < 2 ^ 128 }
    ensures entry { IfOk result (λ entry. entry ≡ entry_at state.now.metadata names.old rows.now) }
    ensures files { OnOk result (S.files store.new ≡ option_map (with_file (next_name state.now.table names.old)
        (rows_text schema.now.columns rows.now)) (S.files store.old)) }
    ensures short { OnOk result (length (rows_text schema.now.columns rows.now) < 2 ^ 63) }
    ensures names { OnOk result (names.new ≡ behind 1 names.old) }
    ensures session { (names.new.run ≡ names.old.run) × (names.new.session ≡ names.old.session) }
    ensures raised { (names.old.next ≤ names.new.next) × (names.new.next ≤ names.old.next + 1) }
    ensures free { ForSome (S.files store.new) (NoneFrom state.now.table names.new.run names.new.session names.new.next) }
    ensures others { PutsDataFiles state.now.table names.old (S.files store.old) (S.files store.new) }
    ensures told { is_some (S.files store.new) ≡ is_some (S.files store.old) }
    ensures kept { KeepsFiles (S.files store.old) (S.files store.new) }
    ensures kind { IfErr result (λ f. (f ≡ LoadFault.Store) ⊎ (f ≡ LoadFault.Memory)) }
    ensures unsettled { IsErrOf result LoadFault.Store → 0 < S.unsettled store.new }
    ensures cause { HasCause LoadFault.Store LoadFault.Memory (S.faults store.old) (S.faults store.new) result }
{
    let bytes = write_rows(alloc, schema, rows)?.into_vec();
    let bytes = bytes.as_slice();
    let entry = entry_at(alloc, &state.metadata, schema, names, rows, bytes)?;
    let table = state.table.as_str();
    match put_next(alloc, store, table, names, Folder::Data, bytes) {
        Ok(()) => Ok(entry),
        Err(fault) => Err(LoadFault::from(fault)),
    }
}

/// Writes a file for each of these lists of rows.
#[tactic(auto, unfolding(crate::specs::Copies::entries_from, crate::specs::Copies::files_from))]
fn write_pieces<S: Store>(
    alloc: Global,
    store: &mut S,
    state: &State,
    schema: &TableSchema,
    names: &mut Names,
    pieces: &[List<Row>],
) -> Result<List<Entry>, LoadFault>
    requires schema { schema.now ≡ schema_of state.now.metadata }
    requires rows { list_all (list_all (is_row schema.now.columns)) pieces.now ≡ true }
    requires free { ForSome (S.files store.old) (NoneFrom state.now.table names.old.run names.old.session names.old.next) }
    requires room { names.old.next + length pieces.now < 2 ^ 128 }
    ensures entries { IfOk result (λ entries. entries ≡ entries_from state.now.metadata names.old pieces.now) }
    ensures files { OnOk result (S.files store.new ≡ option_map (λ files. files_from schema.now.columns state.now.table names.old files pieces.now)
        (S.files store.old)) }
    ensures short { OnOk result (AreShort schema.now.columns pieces.now) }
    ensures names { OnOk result (names.new ≡ behind (length pieces.now) names.old) }
    ensures session { (names.new.run ≡ names.old.run) × (names.new.session ≡ names.old.session) }
    ensures raised { (names.old.next ≤ names.new.next) × (names.new.next ≤ names.old.next + length pieces.now) }
    ensures free { ForSome (S.files store.new) (NoneFrom state.now.table names.new.run names.new.session names.new.next) }
    ensures others { PutsDataFiles state.now.table names.old (S.files store.old) (S.files store.new) }
    ensures told { is_some (S.files store.new) ≡ is_some (S.files store.old) }
    ensures kept { KeepsFiles (S.files store.old) (S.files store.new) }
    ensures kind { IfErr result (λ f. (f ≡ LoadFault.Store) ⊎ (f ≡ LoadFault.Memory)) }
    ensures unsettled { IsErrOf result LoadFault.Store → 0 < S.unsettled store.new }
    ensures cause { HasCause LoadFault.Store LoadFault.Memory (S.faults store.old) (S.faults store.new) result }
{
    let mut entries = List::new(alloc);
    let mut rest = pieces;
    while let [piece, after @ ..] = rest {
        let entry = match write_piece(alloc, store, state, schema, names, piece.as_slice()) {
            Ok(entry) => entry,
            Err(fault) => return Err(fault),
        };
        entries.push(entry)?;
        rest = after;
    }
    Ok(entries)
}

fn entries_of(alloc: Global, scanned: &[ScannedFile]) -> Result<List<Entry>, AllocError>
    ensures { IfOk result (λ entries. entries ≡ map entry_of scanned.now) }
{
    let mut entries = List::new(alloc);
    for file in scanned {
        entries.push(copy_entry(alloc, &file.entry)?)?;
    }
    Ok(entries)
}

/// Writes the rows that a statement leaves of the files that it touches, the rows by which it replaces others, in the order of
/// the scanned files by position, and then the rows that it inserts. The change removes the files that it touches.
pub fn write_copies<S: Store>(
    alloc: Global,
    store: &mut S,
    state: &State,
    scanned: &[ScannedFile],
    decisions: &Decisions,
    filter: Pred,
    names: &mut Names,
) -> Result<ChangeSet, LoadFault>
    requires rows { AreRows (schema_of state.now.metadata).columns (written_of scanned.now decisions.now) }
    requires free { ForSome (S.files store.old) (NoneFrom state.now.table names.old.run names.old.session names.old.next) }
    requires room { HasRoom names.old }
    ensures change { IfOk result (λ change. change ≡ change_of state.now scanned.now decisions.now filter names.old) }
    ensures files { OnOk result (S.files store.new ≡ option_map (files_after state.now scanned.now decisions.now names.old) (S.files store.old)) }
    ensures short { OnOk result (AreShort (schema_of state.now.metadata).columns (pieces_in state.now scanned.now decisions.now)) }
    ensures names { OnOk result (names.new ≡ behind (length (pieces_in state.now scanned.now decisions.now)) names.old) }
    ensures session { (names.new.run ≡ names.old.run) × (names.new.session ≡ names.old.session) }
    ensures raised { (names.old.next ≤ names.new.next) × (names.new.next ≤ names.old.next + 2 ^ 64) }
    ensures free { ForSome (S.files store.new) (NoneFrom state.now.table names.new.run names.new.session names.new.next) }
    ensures others { PutsDataFiles state.now.table names.old (S.files store.old) (S.files store.new) }
    ensures told { is_some (S.files store.new) ≡ is_some (S.files store.old) }
    ensures kept { KeepsFiles (S.files store.old) (S.files store.new) }
    ensures kind { IfErr result (λ f. (f ≡ LoadFault.Store) ⊎ (f ≡ LoadFault.Memory)) }
    ensures unsettled { IsErrOf result LoadFault.Store → 0 < S.unsettled store.new }
    ensures cause { HasCause LoadFault.Store LoadFault.Memory (S.faults store.old) (S.faults store.new) result }
{
    let none = TableSchema {
        id: state.metadata.current_schema,
        columns: List::new(alloc),
    };
    let schema = schema_of(&state.metadata, &none);
    let removed = removed_files(alloc, scanned, decisions.rows.as_slice())?;
    let depended = entries_of(alloc, scanned)?;
    let pieces = written_pieces(alloc, schema, scanned, decisions)?;
    let added = match write_pieces(alloc, store, state, schema, names, pieces.as_slice()) {
        Ok(added) => added,
        Err(fault) => return Err(fault),
    };
    Ok(ChangeSet {
        removed: List::from_vec(removed),
        added_data: added,
        added_deletes: List::new(alloc),
        filter,
        depended,
    })
}
