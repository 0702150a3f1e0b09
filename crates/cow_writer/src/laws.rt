//! What holds of all copies. Each law is the contract of a function that does nothing.
ghost use Rattle.std.specs.Prelude.{◌≡◌, [], List as Seq, Ok};
ghost use Rattle.row_values.specs.declared.schema.Column.{Column};
ghost use Rattle.row_values.specs.Rows.{AreRows};
ghost use Rattle.sql_predicates.specs.declared.pred.Pred.{Pred};
ghost use Rattle.store_core.specs.Files.{Files};
ghost use Rattle.table_names.specs.declared.names.Names.{Names as FileNames};
ghost use Rattle.table_metadata.specs.Metadata.{parts};
ghost use Rattle.table_state.specs.declared.state.State.{State as Loaded};
ghost use Rattle.table_state.specs.Live.{data_rows};
ghost use Rattle.change_sets.specs.declared.scanned.Decisions.{Decisions as Decided};
ghost use Rattle.change_sets.specs.declared.scanned.ScannedFile.{ScannedFile};
ghost use Rattle.change_sets.specs.Scanned.{rows_in_all};
ghost use Rattle.cow_writer.specs.Copies.{change_of, files_after, pieces_in, schema_of};
ghost use Rattle.change_sets.specs.Deciding.{made_of, written_of};
ghost use Rattle.cow_writer.specs.Reading.{CanBeRead};

/// The new files of a change hold the rows that are left of the files that it removes, with the replacements, and then the
/// inserted rows, in their order.
pub fn a_copy_holds_the_rows_after()
    ensures { (state : Loaded) (scanned : Seq ScannedFile) (decisions : Decided) (pred : Pred) (names : FileNames)
        (files : Files) → CanBeRead state names (pieces_in state scanned decisions)
        → AreRows (schema_of state.metadata).columns (written_of scanned decisions)
        → data_rows state.table (parts state.metadata)
        [] (change_of state scanned decisions pred names).added_data (files_after state scanned decisions names files) ≡ Ok (written_of scanned decisions) }
{}

/// The rows that are written are rows of the columns, where those of the scanned files are and those that the statement makes.
pub fn written_rows_are_of_their_columns()
    ensures { (columns : Seq Column) (scanned : Seq ScannedFile) (decisions : Decided) → AreRows columns (rows_in_all scanned)
        → AreRows columns (made_of decisions) → AreRows columns (written_of scanned decisions) }
{}
