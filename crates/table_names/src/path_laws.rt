//! What holds of all written paths. The law is the contract of a function that does nothing.
ghost use Rattle.std.specs.Prelude.{◌≡◌, ◌<◌, ◌^◌, ℕ, List as Seq, Some};
ghost use Rattle.std.specs.Str.{IsUtf8};
ghost use Rattle.table_names.specs.FileNames.{data_name, metadata_name};
ghost use Rattle.table_names.specs.Paths.{folder_of, name_of};
ghost use Rattle.table_names.specs.Sessions.{HasNoSlash};

/// A file whose path is that of a name below the table's location stands under that name in the table's folder, where the
/// session's name has no slash.
pub fn a_written_path_is_its_name()
    ensures data { (table location session : Seq ℕ) (run n : ℕ) → IsUtf8 session → HasNoSlash session → run < 2 ^ 64 → n < 2 ^ 128
        → name_of table location (data_name (folder_of location) run session n) ≡ Some (data_name table run session n) }
    ensures metadata { (table location session : Seq ℕ) (run n : ℕ) → IsUtf8 session → HasNoSlash session → run < 2 ^ 64
        → n < 2 ^ 128
        → name_of table location (metadata_name (folder_of location) run session n) ≡ Some (metadata_name table run session n) }
{}
