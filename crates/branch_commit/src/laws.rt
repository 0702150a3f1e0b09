//! What holds of all commits of statements. Each law is the contract of a function that does nothing.
ghost use Rattle.std.specs.Prelude.{◌≡◌, ◌+◌, ℕ, ℤ, [], List as Seq, Ok, Some};
ghost use Rattle.std.specs.FinMap as map;
ghost use Rattle.plain_types.specs.Bags.{SameBag};
ghost use Rattle.row_values.specs.declared.schema.TableSchema.{TableSchema};
ghost use Rattle.row_values.specs.declared.value.Value.{Value};
ghost use Rattle.row_values.specs.Rows.{AreRows};
ghost use Rattle.sql_statements.specs.declared.statement.Source.{Source};
ghost use Rattle.sql_statements.specs.declared.statement.Statement.{Statement};
ghost use Rattle.sql_statements.specs.Effects.{result_of, rows_after};
ghost use Rattle.store_core.specs.Files.{Files, KeepsFiles};
ghost use Rattle.table_names.specs.declared.names.Names.{Names as Drawn};
ghost use Rattle.manifest_files.specs.declared.entry.Entry.{Entry};
ghost use Rattle.table_metadata.specs.Metadata.{Parts};
ghost use Rattle.table_names.specs.Versions.{version_name};
ghost use Rattle.table_state.specs.Files.{current_schema};
ghost use Rattle.table_state.specs.Live.{data_rows, rows_of_branch};
ghost use Rattle.table_state.specs.declared.state.State.{State as Loaded};
ghost use Rattle.table_state.specs.States.{IsStateOf};
ghost use Rattle.change_sets.specs.declared.scanned.ScannedFile.{ScannedFile};
ghost use Rattle.commit_builder.specs.declared.commit.Prepared.{Prepared};
ghost use Rattle.commit_builder.specs.Commits.{files_after};
ghost use Rattle.branch_commit.specs.Committing.{IsPlanned, IsPrepared, IsWritten, change_by, columns_of, width_of};

/// A statement that was planned on the current version of its branch and is not refused there: once the version that its commit
/// prepares stands under its name, the branch has there, as a bag, the rows that the statement leaves of those it had.
pub fn a_committed_statement_leaves_its_rows()
    ensures { (base head : Loaded) (sources : Seq Source) (s : Statement) (scanned : Seq ScannedFile) (names drawn : Drawn)
        (now : ℤ) (planned written ready later : Files) (prepared : Prepared) (rows : Seq (Seq Value)) → head.table ≡ base.table
        → head.version ≡ base.version → head.branch ≡ base.branch
        → IsPlanned base sources s scanned planned → IsWritten base sources s scanned names planned written
        → KeepsFiles (Some planned) (Some written) → KeepsFiles (Some written) (Some ready)
        → IsPrepared head (change_by base scanned sources s names) drawn now ready prepared
        → KeepsFiles (Some (files_after head (change_by base scanned sources s names) drawn ready)) (Some later)
        → map.get later (version_name head.table (head.version + 1)) ≡ Some prepared.bytes
        → rows_of_branch base.table base.version base.branch planned ≡ Ok rows
        → (result_of (columns_of base) sources s rows ≡ Ok (rows_after (width_of base) sources s rows))
        × ((found : Seq (Seq Value)) × (rows_of_branch base.table (base.version + 1) base.branch later ≡ Ok found)
        × SameBag found (rows_after (width_of base) sources s rows)) }
{}

/// Rows that are read of data files are rows of the columns of the current schema, whatever the files hold.
pub fn rows_of_data_files_are_of_the_columns()
    ensures { (table : Seq ℕ) (parts : Parts) (entries : Seq Entry) (files : Files) (schema : TableSchema)
        (rows : Seq (Seq Value)) → current_schema parts ≡ Ok schema → data_rows table parts [] entries files ≡ Ok rows
        → AreRows schema.columns rows }
{}

/// What was loaded of a branch is what would be loaded again once files were added.
pub fn a_loaded_branch_stands_when_files_are_added()
    ensures { (table branch : Seq ℕ) (version : ℕ) (old later : Files) (loaded : Loaded) → KeepsFiles (Some old) (Some later)
        → IsStateOf table version branch old loaded → IsStateOf table version branch later loaded }
{}
