//! What holds of all names. Each law is the contract of a function that does nothing.
ghost use Rattle.std.specs.Prelude.{◌≡◌, ◌≢◌, ◌≤◌, ◌<◌, ◌+◌, ◌^◌, ℕ, List as Seq};
ghost use Rattle.store_core.specs.Files.{Files, with_file};
ghost use Rattle.table_names.specs.FileNames.{HasNoHyphen, NoneFrom, data_name, metadata_name};

/// A file under the number that was drawn leaves the names of all later numbers free.
pub fn a_file_leaves_the_later_names_free()
    ensures data { (table session bytes : Seq ℕ) (run n : ℕ) (files : Files) → NoneFrom table run session n files
        → NoneFrom table run session (n + 1) (with_file (data_name table run session n) bytes files) }
    ensures metadata { (table session bytes : Seq ℕ) (run n : ℕ) (files : Files) → NoneFrom table run session n files
        → NoneFrom table run session (n + 1) (with_file (metadata_name table run session n) bytes files) }
{}

/// A file of another session leaves all names of this one free, where no session's name has a hyphen.
pub fn another_session_leaves_the_names_free()
    ensures data { (table session other bytes : Seq ℕ) (run from n : ℕ) (files : Files) → HasNoHyphen session → HasNoHyphen other
        → session ≢ other → NoneFrom table run session from files
        → NoneFrom table run session from (with_file (data_name table run other n) bytes files) }
    ensures metadata { (table session other bytes : Seq ℕ) (run from n : ℕ) (files : Files) → HasNoHyphen session
        → HasNoHyphen other → session ≢ other → NoneFrom table run session from files
        → NoneFrom table run session from (with_file (metadata_name table run other n) bytes files) }
{}
