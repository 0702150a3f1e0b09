//! What holds of all statements. The law is the contract of a function that does nothing.
ghost use Rattle.std.specs.Prelude.{◌≡◌, ◌++◌, ℕ, [], List as Seq, Ok, IsTrue};
ghost use Rattle.plain_types.specs.Bags.{SameBag};
ghost use Rattle.row_values.specs.declared.value.Value.{Value};
ghost use Rattle.sql_statements.specs.declared.statement.Source.{Source};
ghost use Rattle.sql_statements.specs.declared.statement.Statement.{Statement};
ghost use Rattle.sql_statements.specs.Effects.{rows_after};
ghost use Rattle.sql_statements.specs.Filter.{filter_of};
ghost use Rattle.sql_statements.specs.Fits.{are_wide};
ghost use Rattle.store_core.specs.Files.{Files};
ghost use Rattle.manifest_files.specs.declared.entry.Entry.{Entry};
ghost use Rattle.table_metadata.specs.Metadata.{Parts};
ghost use Rattle.table_state.specs.Live.{data_rows};
ghost use Rattle.change_sets.specs.declared.scanned.ScannedFile.{ScannedFile};
ghost use Rattle.change_sets.specs.Laid.{without};
ghost use Rattle.table_scan.specs.Scanning.{scanned_at};
ghost use Rattle.change_sets.specs.Deciding.{removed_of, written_of};
ghost use Rattle.table_scan.specs.Decisions.{decisions_of};

/// The rows of the data files that are not removed, with the rows that are written, are as a bag the rows that the statement
/// leaves: of rows as wide as the table, and files scanned by the statement's filter.
pub fn copies_do_what_the_statement_does()
    ensures { (table : Seq ℕ) (parts : Parts) (entries : Seq Entry) (files : Files) (scanned : Seq ScannedFile)
        (sources : Seq Source) (s : Statement) (width : ℕ) (rows : Seq (Seq Value))
        → scanned_at table parts (filter_of width s) entries files ≡ Ok scanned
        → data_rows table parts [] entries files ≡ Ok rows → IsTrue (are_wide width rows)
        → (rest : Seq (Seq Value))
        × (data_rows table parts [] (without (removed_of scanned (decisions_of sources s width scanned rows).rows) entries) files ≡ Ok rest)
        × SameBag (rest ++ written_of scanned (decisions_of sources s width scanned rows)) (rows_after width sources s rows) }
{}
