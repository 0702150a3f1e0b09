//! What holds of all decisions. Each law is the contract of a function that does nothing.
ghost use Rattle.std.specs.Prelude.{◌≡◌, ℕ, [], List as Seq, length, IsTrue, None, Ok};
ghost use Rattle.std.specs.List.{list_all};
ghost use Rattle.row_values.specs.declared.schema.Column.{Column};
ghost use Rattle.row_values.specs.declared.value.Value.{Value};
ghost use Rattle.row_values.specs.Rows.{AreRows};
ghost use Rattle.sql_statements.specs.declared.statement.Source.{Source};
ghost use Rattle.sql_statements.specs.declared.statement.Statement.{Statement};
ghost use Rattle.sql_statements.specs.Effects.{insertions, refusal};
ghost use Rattle.sql_statements.specs.Filter.{filter_of};
ghost use Rattle.sql_statements.specs.Fits.{are_wide};
ghost use Rattle.sql_statements.specs.Kinds.{source_has_rows, statement_fits};
ghost use Rattle.store_core.specs.Files.{Files};
ghost use Rattle.manifest_files.specs.declared.entry.Entry.{Entry};
ghost use Rattle.table_metadata.specs.Metadata.{Parts};
ghost use Rattle.table_state.specs.Live.{data_rows};
ghost use Rattle.change_sets.specs.declared.scanned.ScannedFile.{ScannedFile};
ghost use Rattle.change_sets.specs.Scanned.{rows_in_all};
ghost use Rattle.table_scan.specs.Scanning.{scanned_at};
ghost use Rattle.change_sets.specs.Deciding.{made_of};
ghost use Rattle.table_scan.specs.Decisions.{decisions_of, hit_rows};

/// What a statement inserts into a branch and decides of its rows, and why it is refused there, is so by the rows of its data
/// files that are hit, where the files were scanned by its filter.
pub fn the_hits_decide_for_the_branch()
    ensures inserted { (table : Seq ℕ) (parts : Parts) (width : ℕ) (sources : Seq Source) (s : Statement) (entries : Seq Entry)
        (files : Files) (scanned : Seq ScannedFile) (rows : Seq (Seq Value))
        → scanned_at table parts (filter_of width s) entries files ≡ Ok scanned
        → data_rows table parts [] entries files ≡ Ok rows → IsTrue (are_wide width rows)
        → insertions width sources s rows ≡ insertions width sources s (hit_rows scanned) }
    ensures decided { (table : Seq ℕ) (parts : Parts) (width : ℕ) (sources : Seq Source) (s : Statement) (entries : Seq Entry)
        (files : Files) (scanned : Seq ScannedFile) (rows : Seq (Seq Value))
        → scanned_at table parts (filter_of width s) entries files ≡ Ok scanned
        → data_rows table parts [] entries files ≡ Ok rows → IsTrue (are_wide width rows)
        → decisions_of sources s width scanned rows ≡ decisions_of sources s width scanned (hit_rows scanned) }
    ensures refused { (table : Seq ℕ) (parts : Parts) (columns : Seq Column) (sources : Seq Source) (s : Statement)
        (entries : Seq Entry) (files : Files) (scanned : Seq ScannedFile) (rows : Seq (Seq Value))
        → scanned_at table parts (filter_of (length columns) s) entries files ≡ Ok scanned
        → data_rows table parts [] entries files ≡ Ok rows → IsTrue (are_wide (length columns) rows)
        → refusal columns sources s rows ≡ refusal columns sources s (hit_rows scanned) }
{}

/// The rows that are hit are rows of the columns, where those of the scanned files are.
pub fn hit_rows_are_of_the_columns()
    ensures { (columns : Seq Column) (scanned : Seq ScannedFile) → AreRows columns (rows_in_all scanned) → AreRows columns (hit_rows scanned) }
{}

/// The rows that a statement makes are rows of the columns, where its expressions fit them, the rows of the scanned files and
/// of the sources are rows of theirs, and it is not refused.
pub fn what_is_decided_is_of_the_columns()
    ensures { (columns : Seq Column) (sources : Seq Source) (s : Statement) (scanned : Seq ScannedFile)
        → IsTrue (list_all source_has_rows sources) → IsTrue (statement_fits columns sources s)
        → AreRows columns (rows_in_all scanned) → refusal columns sources s (hit_rows scanned) ≡ None
        → AreRows columns (made_of (decisions_of sources s (length columns) scanned (hit_rows scanned))) }
{}
