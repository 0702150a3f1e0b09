//! What holds of all commits. Each law is the contract of a function that does nothing.
ghost use Rattle.std.specs.Prelude.{◌≡◌, ◌++◌, ◌<◌, ◌^◌, ℕ, ℤ, false, List as Seq, length, map, Some};
ghost use Rattle.std.specs.List.{AllByRecursion};
ghost use Rattle.plain_types.specs.Bags.{SameBag};
ghost use Rattle.row_values.specs.declared.partition.Spec.{Spec};
ghost use Rattle.row_values.specs.declared.schema.TableSchema.{TableSchema};
ghost use Rattle.manifest_files.specs.declared.manifest_row.ManifestRow.{ManifestRow};
ghost use Rattle.table_state.specs.declared.live_set.LiveSet.{LiveSet as Live};
ghost use Rattle.table_state.specs.declared.state.LiveCount.{LiveCount as Count};
ghost use Rattle.change_sets.specs.declared.change.AddedAs.{AddedAs};
ghost use Rattle.change_sets.specs.declared.change.ChangeSet.{ChangeSet};
ghost use Rattle.change_sets.specs.Laid.{as_kept, laid};
ghost use Rattle.table_names.specs.declared.names.Names.{Names as Drawn};
ghost use Rattle.table_names.specs.FileNames.{NoneFrom};
ghost use Rattle.metadata_writer.specs.PartsAfter.{CanFollow};
ghost use Rattle.table_metadata.specs.Metadata.{parts};
ghost use Rattle.store_core.specs.Files.{Files, KeepsFiles};
ghost use Rattle.table_state.specs.declared.state.State.{State as Loaded};
ghost use Rattle.table_state.specs.States.{IsParted, IsStateOf};
ghost use Rattle.commit_builder.specs.Commits.{AreSpelled, drafts_in, files_after, snapshot_in};
ghost use Rattle.commit_manifests.specs.Holding.{held_after};
ghost use Rattle.commit_builder.specs.NextVersion.{AreNames, CanBeAdded, CanBeLaid, CanBeRewritten, HasNumbers, HoldsChange};
ghost use Rattle.commit_builder.specs.SnapshotIds.{next_id};
ghost use Rattle.commit_manifests.specs.Sorting.{has_id};

/// The manifests of a commit, those that are written and those that stand, hold live the files of the head with the change
/// laid on them, each once, in some order and with some status, where each manifest of the head holds as many as is said.
pub fn a_commit_holds_the_change()
    ensures { (specs : Seq Spec) (schema : TableSchema) (numbers : AddedAs) (change : ChangeSet) (rows : Seq ManifestRow)
        (counts : Seq Count) (live : Live) → IsParted rows counts live.data_files live.deletes
        → SameBag (map as_kept (held_after specs schema numbers change rows counts live))
        (map as_kept ((laid numbers live change).data_files ++ (laid numbers live change).deletes)) }
{}

/// The id of a new snapshot is none of those that are there, where there are fewer than 2^62.
pub fn the_next_id_is_new()
    ensures { (ids : Seq ℤ) → length ids < 2 ^ 62 → has_id (next_id ids) ids ≡ false }
{}

/// The branch of the version that a commit prepares has its snapshot, whose live files are those of the head with the change
/// laid on them, in some order and with some status, in all files that keep what the commit put: where the head was loaded,
/// names of the session are free, and what is written can be read again.
pub fn a_prepared_version_holds_the_change()
    ensures { (head : Loaded) (change : ChangeSet) (names : Drawn) (now : ℤ) (version : ℕ) (old files later : Files)
        → IsStateOf head.table version head.branch old head → KeepsFiles (Some old) (Some files)
        → NoneFrom head.table names.run names.session names.next files → AreNames names → length (drafts_in head change) < 2 ^ 100
        → AreSpelled head change names → CanBeLaid head change names now
        → KeepsFiles (Some (files_after head change names files)) (Some later) → HoldsChange head change names now later }
{}

/// The snapshot of a commit can follow those of its head, where the numbers are in the ranges of their types and there are
/// fewer than 2^62 ids.
pub fn a_commit_can_follow()
    ensures { (head : Loaded) (change : ChangeSet) (names : Drawn) (now : ℤ) → HasNumbers head now
        → CanFollow (snapshot_in head change names now) now (parts head.metadata) }
{}

/// A change can be laid on a head that was read, where the table has its schema and specs that can be written, and each added
/// entry is of one of them and can be written too: what is read of the head's manifests can be written again.
pub fn a_change_can_be_laid()
    ensures { (head : Loaded) (change : ChangeSet) (names : Drawn) (now : ℤ) (version : ℕ) (old : Files)
        → IsStateOf head.table version head.branch old head → HasNumbers head now → CanBeRewritten head
        → AllByRecursion (CanBeAdded head) change.added_data → AllByRecursion (CanBeAdded head) change.added_deletes → CanBeLaid head change names now }
{}
