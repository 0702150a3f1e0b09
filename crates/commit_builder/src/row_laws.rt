//! What holds of all commits. The law is the contract of a function that does nothing.
ghost use Rattle.std.specs.Prelude.{◌≡◌, ◌+◌, ◌<◌, ◌++◌, ◌^◌, ℕ, ℤ, [], List as Seq, length, Ok, Some};
ghost use Rattle.std.specs.FinMap as map;
ghost use Rattle.plain_types.specs.Bags.{SameBag};
ghost use Rattle.row_values.specs.declared.value.Value.{Value};
ghost use Rattle.store_core.specs.Files.{Files, KeepsFiles};
ghost use Rattle.table_names.specs.declared.names.Names.{Names as Drawn};
ghost use Rattle.table_names.specs.FileNames.{NoneFrom};
ghost use Rattle.table_metadata.specs.Metadata.{parts};
ghost use Rattle.table_names.specs.Versions.{version_name};
ghost use Rattle.table_state.specs.Live.{data_rows, rows_of_branch};
ghost use Rattle.table_state.specs.declared.state.State.{State as Loaded};
ghost use Rattle.table_state.specs.States.{IsStateOf};
ghost use Rattle.change_sets.specs.declared.change.ChangeSet.{ChangeSet};
ghost use Rattle.change_sets.specs.Laid.{without};
ghost use Rattle.commit_builder.specs.declared.commit.Prepared.{Prepared};
ghost use Rattle.commit_builder.specs.Commits.{AreSpelled, drafts_in, files_after, live_in};
ghost use Rattle.commit_builder.specs.NextVersion.{AreNames, CanBeLaid};
ghost use Rattle.commit_builder.specs.Preparing.{Prepares};
ghost use Rattle.commit_builder.specs.Contents.{HasContents};

/// The version that a commit prepares, once it stands under its name, has the rows of the head's data files that are not
/// removed and those of the added ones, as a bag: in all files that keep what was there and what the commit put.
pub fn the_next_version_has_the_rows()
    ensures { (head : Loaded) (change : ChangeSet) (names : Drawn) (now : ℤ) (old files later : Files) (prepared : Prepared)
        (left written : Seq (Seq Value)) → IsStateOf head.table head.version head.branch old head
        → KeepsFiles (Some old) (Some files)
        → NoneFrom head.table names.run names.session names.next files → AreNames names → length (drafts_in head change) < 2 ^ 100
        → AreSpelled head change names → CanBeLaid head change names now → HasContents change
        → Prepares head head.branch change names now prepared
        → KeepsFiles (Some (files_after head change names files)) (Some later)
        → map.get later (version_name head.table (head.version + 1)) ≡ Some prepared.bytes
        → data_rows head.table (parts head.metadata) [] (without change.removed (live_in head.head).data_files) old ≡ Ok left
        → data_rows head.table (parts head.metadata) [] change.added_data files ≡ Ok written
        → (found : Seq (Seq Value)) × (rows_of_branch head.table (head.version + 1) head.branch later ≡ Ok found) × SameBag found (left ++ written) }
{}
