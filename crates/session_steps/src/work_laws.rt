//! What holds of all tables that are open. Each law is the contract of a function that does nothing.
ghost use Rattle.std.specs.Prelude.{◌≡◌, ◌<◌, ℕ, List as Seq, Some};
ghost use Rattle.std.specs.FinMap as map;
ghost use Rattle.row_values.specs.declared.schema.TableSchema.{TableSchema};
ghost use Rattle.store_core.specs.Files.{Files, KeepsFiles};
ghost use Rattle.table_names.specs.FileNames.{data_name, metadata_name};
ghost use Rattle.table_names.specs.Versions.{version_of_name, version_prefix};
ghost use Rattle.session_steps.specs.Open.{IsOpen};

/// The files that a run puts have no names of versions.
pub fn names_of_files_are_no_versions()
    ensures of_data { (table session : Seq ℕ) (run n : ℕ) → version_of_name (version_prefix table) (data_name table run session n) ≡ 0 }
    ensures of_metadata { (table session : Seq ℕ) (run n : ℕ) → version_of_name (version_prefix table) (metadata_name table run session n) ≡ 0 }
{}

/// A table stays open, at the same version and with the same rows, where files are added of which none is a version.
pub fn a_table_stays_open()
    ensures { (table : Seq ℕ) (schema : TableSchema) (files later : Files) (current : ℕ) (was : IsOpen table schema files current) → KeepsFiles (Some files) (Some later)
        → ((name : Seq ℕ) → 0 < version_of_name (version_prefix table) name → map.get later name ≡ map.get files name)
        → (still : IsOpen table schema later current) × (still.rows ≡ was.rows) }
{}
