//! What holds of the rows of all data files. The law is the contract of a function that does nothing.
ghost use Rattle.std.specs.Prelude.{◌≡◌, ℕ, [], List as Seq, map, Ok};
ghost use Rattle.plain_types.specs.Bags.{SameBag};
ghost use Rattle.row_values.specs.declared.value.Value.{Value};
ghost use Rattle.store_core.specs.Files.{Files};
ghost use Rattle.manifest_files.specs.declared.entry.Entry.{Entry};
ghost use Rattle.table_metadata.specs.Metadata.{Parts};
ghost use Rattle.table_state.specs.Live.{data_rows};
ghost use Rattle.change_sets.specs.Laid.{as_kept};

/// The same files, in another order and with other statuses, have the same rows, as a bag.
pub fn rows_of_files_are_a_bag()
    ensures { (table : Seq ℕ) (parts : Parts) (files : Files) (others entries : Seq Entry) (rows : Seq (Seq Value))
        → SameBag (map as_kept others) (map as_kept entries) → data_rows table parts [] entries files ≡ Ok rows
        → (found : Seq (Seq Value)) × (data_rows table parts [] others files ≡ Ok found) × SameBag found rows }
{}
