//! What holds of all that is read. Each law is the contract of a function that does nothing.
ghost use Rattle.std.specs.Prelude.{◌≡◌, ℕ, List as Seq, Ok, IsTrue};
ghost use Rattle.std.specs.List.{list_all};
ghost use Rattle.row_values.specs.declared.partition.Spec.{Spec};
ghost use Rattle.row_values.specs.declared.schema.TableSchema.{TableSchema};
ghost use Rattle.manifest_files.specs.declared.entry.Entry.{Entry};
ghost use Rattle.manifest_files.specs.declared.manifest_row.ManifestRow.{ManifestRow};
ghost use Rattle.manifest_files.specs.Entries.{entries_of};
ghost use Rattle.manifest_files.specs.Lists.{rows_of_list};
ghost use Rattle.manifest_writer.specs.ListDatum.{is_listed};
ghost use Rattle.manifest_writer.specs.Readable.{is_written};

/// Entries that are read of a manifest can be written into one of the same spec: their counts and sizes are those of longs,
/// and their statistics are of known columns, with bounds of their kinds.
pub fn entries_that_are_read_can_be_written()
    ensures { (bytes : Seq ℕ) (row : ManifestRow) (spec : Spec) (schema : TableSchema) (entries : Seq Entry)
        → entries_of bytes row spec schema ≡ Ok entries → IsTrue (list_all (is_written spec schema) entries) }
{}

/// Rows that are read of a manifest list can be listed again: no count is negative, and each bound is bytes.
pub fn rows_that_are_read_can_be_listed()
    ensures { (bytes : Seq ℕ) (rows : Seq ManifestRow) → rows_of_list bytes ≡ Ok rows → IsTrue (list_all is_listed rows) }
{}
