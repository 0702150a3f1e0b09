//! Laws of what is written. Each function says its law in its clauses, and does nothing.
ghost use Rattle.std.specs.Prelude.{◌≡◌, ◌^◌, ◌<◌, List, Ok, length, map};
ghost use Rattle.std.specs.List.{AllByRecursion};
ghost use Rattle.row_values.specs.declared.partition.Spec.{Spec};
ghost use Rattle.row_values.specs.declared.schema.TableSchema.{TableSchema};
ghost use Rattle.manifest_files.specs.declared.entry.Entry.{Entry};
ghost use Rattle.manifest_files.specs.declared.manifest_row.ManifestRow.{ManifestRow};
ghost use Rattle.manifest_files.specs.Entries.{entries_of};
ghost use Rattle.manifest_writer.specs.EntryDatum.{manifest_text, IsEntry};
ghost use Rattle.manifest_writer.specs.Readable.{CanBeWritten, as_read};

/// Entries that are written are read again, with the numbers that added ones take from the row of their manifest, where
/// each is of the spec, its counts are those of longs, and its statistics are of known columns.
pub fn a_written_manifest_is_read_again()
    ensures { (entries : List Entry) → (spec : Spec) → (schema : TableSchema) → (row : ManifestRow)
        → AllByRecursion IsEntry entries → CanBeWritten entries spec schema → length (manifest_text entries spec schema) < 2 ^ 63
        → entries_of (manifest_text entries spec schema) row spec schema ≡ Ok (map (as_read row) entries) }
{}
