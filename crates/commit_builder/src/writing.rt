//! Puts manifests under the next names.
ghost use Rattle.std.specs.Prelude.{◌≡◌, ◌<◌, ◌≤◌, ◌+◌, ◌^◌, ◌⊎◌, [], option_map, length, is_some, IfOk, IfErr, IsErrOf, OnOk};
ghost use Rattle.std.specs.List.{AllByRecursion};
ghost use Rattle.std.specs.Option.{ForSome};
ghost use Rattle.plain_types.specs.Causes.{HasCause};
ghost use Rattle.store_core.specs.Files.{KeepsFiles};
ghost use Rattle.table_names.specs.FileNames.{NoneFrom};
ghost use Rattle.commit_manifests.specs.Rows.{row_of};
ghost use Rattle.table_names.specs.Paths.{folder_of};
ghost use Rattle.commit_builder.specs.Commits.{files_from, next_name, row_in, rows_from, text_in, IsSpelled};
ghost use Rattle.commit_manifests.specs.Drafts.{spec_in};
ghost use Rattle.commit_builder.specs.Puts.{PutsManifests};

use commit_manifests::{CommitNumbers, Draft, row_of, unpartitioned};
use manifest_files::ManifestRow;
use manifest_writer::write_manifest;
use plain_types::Text;
use row_values::{Spec, TableSchema};
use std::alloc::{AllocError, Global};
use store_core::Store;
use table_metadata::spec_with;
use table_names::{Folder, Names, folder_of, put_next};
use table_state::{LoadFault, State};

// The spec with an id, or this one.
fn spec_or<'a>(id: i32, specs: &'a [Spec], plain: &'a Spec) -> &'a Spec
    requires { plain.now ≡ record { id = id; fields = [] } }
    ensures { result.now ≡ spec_in specs.now id }
{
    match spec_with(id, specs) {
        Some(spec) => spec,
        None => plain,
    }
}

// The bytes of a manifest.
fn bytes_of(
    alloc: Global,
    head: &State,
    schema: &TableSchema,
    draft: &Draft,
    spec: &Spec,
) -> Result<Vec<u8>, AllocError>
    requires { spec.now ≡ spec_in head.now.metadata.specs draft.now.spec }
    ensures text { IfOk result (λ bytes. bytes.items ≡ text_in head.now schema.now draft.now) }
    ensures spelled { IfOk result (λ bytes. IsSpelled head.now schema.now draft.now) }
{
    let bytes = write_manifest(alloc, draft.entries.as_slice(), spec, schema)?;
    Ok(bytes.into_vec())
}

// The row of a manifest of so many bytes, under the next name.
fn row_under(
    alloc: Global,
    head: &State,
    numbers: CommitNumbers,
    names: &Names,
    draft: &Draft,
    spec: &Spec,
    length: usize,
) -> Result<ManifestRow, AllocError>
    ensures { IfOk result (λ row. row ≡ row_of (next_name (folder_of head.now.metadata.location) names.now) length spec.now draft.now.content numbers draft.now.entries) }
{
    let folder = folder_of(head.metadata.location.as_str());
    let path = Text::from_string(names.metadata_path(alloc, folder)?);
    let entries = draft.entries.as_slice();
    row_of(alloc, path, length, spec, draft.content, numbers, entries)
}

// The bytes and the row of a manifest, under the next name.
fn manifest_of(
    alloc: Global,
    head: &State,
    schema: &TableSchema,
    numbers: CommitNumbers,
    names: &Names,
    draft: &Draft,
) -> Result<(Vec<u8>, ManifestRow), AllocError>
    ensures text { IfOk result (λ made. made.0.items ≡ text_in head.now schema.now draft.now) }
    ensures spelled { IfOk result (λ made. IsSpelled head.now schema.now draft.now) }
    ensures row { IfOk result (λ made. made.1 ≡ row_in head.now schema.now numbers names.now draft.now) }
{
    let plain = unpartitioned(alloc, draft.spec);
    let spec = spec_or(draft.spec, head.metadata.specs.as_slice(), &plain);
    let bytes = bytes_of(alloc, head, schema, draft, spec)?;
    let row = row_under(alloc, head, numbers, names, draft, spec, bytes.len())?;
    Ok((bytes, row))
}

/// Puts the manifests under the next names, and gives their rows.
#[tactic(auto, unfolding(crate::specs::Commits::rows_from, crate::specs::Commits::files_from))]
pub(crate) fn put_manifests<S: Store>(
    alloc: Global,
    store: &mut S,
    head: &State,
    schema: &TableSchema,
    numbers: CommitNumbers,
    drafts: &[Draft],
    names: &mut Names,
) -> Result<Vec<ManifestRow>, LoadFault>
    requires free { ForSome (S.files store.old) (NoneFrom head.now.table names.old.run names.old.session names.old.next) }
    requires room { names.old.next < 2 ^ 127 }
    ensures rows { IfOk result (λ rows. rows.items ≡ rows_from head.now schema.now numbers names.old [] drafts.now) }
    ensures spelled { IfOk result (λ rows. AllByRecursion (IsSpelled head.now schema.now) drafts.now) }
    ensures files { OnOk result (S.files store.new ≡ option_map (λ files. files_from head.now schema.now numbers names.old files drafts.now)
        (S.files store.old)) }
    ensures names { OnOk result (names.new ≡ record names.old { next = names.old.next + length drafts.now }) }
    ensures session { (names.new.run ≡ names.old.run) × (names.new.session ≡ names.old.session) }
    ensures raised { (names.old.next ≤ names.new.next) × (names.new.next ≤ names.old.next + 2 ^ 64) }
    ensures free { ForSome (S.files store.new) (NoneFrom head.now.table names.new.run names.new.session names.new.next) }
    ensures others { PutsManifests head.now.table names.old (S.files store.old) (S.files store.new) }
    ensures told { is_some (S.files store.new) ≡ is_some (S.files store.old) }
    ensures kept { KeepsFiles (S.files store.old) (S.files store.new) }
    ensures reads { S.reads store.new ≡ S.reads store.old }
    ensures kind { IfErr result (λ f. (f ≡ LoadFault.Store) ⊎ (f ≡ LoadFault.Memory)) }
    ensures unsettled { IsErrOf result LoadFault.Store → 0 < S.unsettled store.new }
    ensures cause { HasCause LoadFault.Store LoadFault.Memory (S.faults store.old) (S.faults store.new) result }
{
    let mut rows = Vec::new(alloc);
    let mut rest = drafts;
    while let [draft, after @ ..] = rest {
        let (bytes, row) = manifest_of(alloc, head, schema, numbers, names, draft)?;
        let bytes = bytes.as_slice();
        let table = head.table.as_str();
        match put_next(alloc, store, table, names, Folder::Metadata, bytes) {
            Ok(()) => {}
            Err(fault) => return Err(LoadFault::from(fault)),
        }
        rows.push(row)?;
        rest = after;
    }
    Ok(rows)
}
