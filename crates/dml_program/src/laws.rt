// What the answers of the program mean. The law is the contract of a function that does nothing.
ghost use Rattle.std.specs.Prelude.{◌≡◌, ℕ, List as Seq, Some, Ok, codes};
ghost use Rattle.row_values.specs.declared.value.Value.{Value as Content};
ghost use Rattle.store_core.specs.Files.{Files};
ghost use Rattle.table_state.specs.Live.{rows_of_branch};
ghost use Rattle.table_names.specs.Versions.{version_of};
ghost use Rattle.dml_program.specs.Opening.{table_rows};

/// The rows that are printed of a table are those of its branch `main` at its current version.
pub fn printed_rows_are_those_of_main()
    ensures { (table : Seq ℕ) (files : Files) (rows : Seq (Seq Content)) → table_rows table files ≡ Ok rows → (version : ℕ)
        × (version_of table files ≡ Some version) × (rows_of_branch table version (codes "main") files ≡ Ok rows) }
{}
