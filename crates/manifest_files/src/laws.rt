//! Laws of what is read. Each function says its law in its clauses, and does nothing.
ghost use Rattle.std.specs.Prelude.{◌≡◌, ℕ, List, Ok};
ghost use Rattle.row_values.specs.declared.partition.Spec.{Spec};
ghost use Rattle.row_values.specs.declared.schema.TableSchema.{TableSchema};
ghost use Rattle.manifest_files.specs.declared.entry.Entry.{Entry};
ghost use Rattle.manifest_files.specs.declared.manifest_row.ManifestRow.{ManifestRow};
ghost use Rattle.manifest_files.specs.Entries.{entries_of};
ghost use Rattle.manifest_files.specs.Sound.{AreEntries};

/// Entries that are read are of the spec, whatever the file holds: each names it, has one of the three statuses, and
/// has a value for each field of the spec, NULL or of the kind that the field's transform gives. Its statistics stand in
/// strictly rising order of ids, and each tells something.
pub fn entries_are_of_their_spec()
    ensures { (bytes : List ℕ) (row : ManifestRow) (spec : Spec) (schema : TableSchema) (entries : List Entry)
        → entries_of bytes row spec schema ≡ Ok entries → AreEntries spec schema entries }
{}
