//! What holds of the commits to all tables of the form that is read so far. Each law is the contract of a function that does
//! nothing.
ghost use Rattle.std.specs.Prelude.{int_lt, ◌≡◌, ◌+◌, ◌<◌, ◌≤◌, ◌^◌, ℕ, ℤ, true, List as Seq, length};
ghost use Rattle.std.specs.List.{AllByRecursion};
ghost use Rattle.sql_predicates.specs.declared.pred.Pred.{Pred};
ghost use Rattle.store_core.specs.Files.{Files};
ghost use Rattle.table_names.specs.declared.names.Names.{Names as Drawn};
ghost use Rattle.iceberg_schema.specs.Widths.{IsLong};
ghost use Rattle.table_state.specs.Form.{table_in_form};
ghost use Rattle.table_metadata.specs.Metadata.{parts};
ghost use Rattle.table_state.specs.declared.state.State.{State as Loaded};
ghost use Rattle.table_state.specs.States.{IsStateOf};
ghost use Rattle.change_sets.specs.declared.scanned.Decisions.{Decisions as Decided};
ghost use Rattle.change_sets.specs.declared.scanned.ScannedFile.{ScannedFile};
ghost use Rattle.commit_builder.specs.Commits.{live_in};
ghost use Rattle.commit_builder.specs.NextVersion.{AreNames, CanBeAdded, CanBeLaid, CanBeRewritten, HasNumbers};
ghost use Rattle.commit_builder.specs.SnapshotIds.{ids_of, last};
ghost use Rattle.cow_writer.specs.Copies.{change_of, pieces_in, schema_of};
ghost use Rattle.cow_writer.specs.Reading.{AreShort, CanBeRead};
ghost use Rattle.commit_builder.specs.OneTable.{HasSchemasOf};

/// The manifests of a table of the form can be written anew: its current schema is there, its columns are of kinds that are
/// read again, and its specs have no fields.
pub fn a_table_in_form_can_be_rewritten()
    ensures { (head : Loaded) (version : ℕ) (files : Files) → IsStateOf head.table version head.branch files head
        → table_in_form (parts head.metadata) ≡ true → CanBeRewritten head }
{}

/// The numbers of a table are in the ranges of their types, where there is a next sequence number, the clock's number is in its
/// range and there are fewer than 2^62 ids.
pub fn a_table_has_numbers()
    ensures { (head : Loaded) (now : ℤ) (version : ℕ) (files : Files) → IsStateOf head.table version head.branch files head → int_lt head.metadata.last_sequence last ≡ true → IsLong now
        → length (ids_of head.metadata.snapshots (live_in head.head)) < 2 ^ 62 → HasNumbers head now }
{}

/// The data files that a change adds can be added to a table of the form, where they have the sizes of files.
pub fn a_written_file_can_be_added()
    ensures { (base : Loaded) (scanned : Seq ScannedFile) (decisions : Decided) (pred : Pred) (names : Drawn) (version : ℕ)
        (files : Files) → IsStateOf base.table version base.branch files base → table_in_form (parts base.metadata) ≡ true
        → AreShort (schema_of base.metadata).columns (pieces_in base scanned decisions)
        → AllByRecursion (CanBeAdded base) (change_of base scanned decisions pred names).added_data }
{}

/// The data files that a change adds to a table of the form are read again, where they have the sizes of files and as many
/// names are left.
pub fn written_files_can_be_read()
    ensures { (base : Loaded) (scanned : Seq ScannedFile) (decisions : Decided) (names : Drawn) (version : ℕ) (files : Files)
        → IsStateOf base.table version base.branch files base → table_in_form (parts base.metadata) ≡ true
        → AreNames names → names.next + length (pieces_in base scanned decisions) ≤ 2 ^ 128
        → AreShort (schema_of base.metadata).columns (pieces_in base scanned decisions)
        → CanBeRead base names (pieces_in base scanned decisions) }
{}

/// A change that was planned on a version of a table of the form can be laid on a version of the same schemas and specs.
pub fn a_change_of_a_table_in_form_can_be_laid()
    ensures { (base head : Loaded) (scanned : Seq ScannedFile) (decisions : Decided) (pred : Pred) (names drawn : Drawn)
        (now : ℤ) (planned version : ℕ) (old files : Files) → IsStateOf base.table planned base.branch old base
        → table_in_form (parts base.metadata) ≡ true
        → IsStateOf head.table version head.branch files head → table_in_form (parts head.metadata) ≡ true
        → HasSchemasOf base head → int_lt head.metadata.last_sequence last ≡ true → IsLong now
        → length (ids_of head.metadata.snapshots (live_in head.head)) < 2 ^ 62
        → AreShort (schema_of base.metadata).columns (pieces_in base scanned decisions)
        → CanBeLaid head (change_of base scanned decisions pred names) drawn now }
{}
