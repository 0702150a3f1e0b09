//! What holds of all tables. The law is the contract of a function that does nothing.
ghost use Rattle.std.specs.Prelude.{◌≡◌, ◌≢◌, ◌+◌, ◌<◌, ◌≤◌, ◌^◌, ℕ, List as Seq, Some, None, IsSome};
ghost use Rattle.std.specs.FinMap as map;
ghost use Rattle.store_core.specs.Files.{Files};
ghost use Rattle.table_names.specs.Versions.{version_name, version_of, version_of_name, version_prefix};

/// A version that is there is not above the current one, and none is there where there is no current one.
pub fn a_version_is_not_above_the_current_one()
    ensures greatest { (table : Seq ℕ) (files : Files) (current n : ℕ) → version_of table files ≡ Some current → current < n
        → n < 2 ^ 32 → map.get files (version_name table n) ≡ None }
    ensures none { (table : Seq ℕ) (files : Files) (n : ℕ) → version_of table files ≡ None → 0 < n → n < 2 ^ 32 → map.get files (version_name table n) ≡ None }
{}

/// The current version is the same where all names of versions have the same files.
pub fn the_names_of_versions_say_which_is_current()
    ensures { (table : Seq ℕ) (old new : Files) → ((name : Seq ℕ) → 0 < version_of_name (version_prefix table) name
        → map.get new name ≡ map.get old name) → version_of table new ≡ version_of table old }
{}

/// The next version is the current one once its name is there, and no other name of a version changes.
pub fn the_next_version_is_current_once_it_is_there()
    ensures { (table : Seq ℕ) (old new : Files) (current : ℕ) (bytes : Seq ℕ) → version_of table old ≡ Some current
        → current + 1 < 2 ^ 32 → map.get new (version_name table (current + 1)) ≡ Some bytes
        → ((name : Seq ℕ) → 0 < version_of_name (version_prefix table) name → name ≢ version_name table (current + 1)
        → map.get new name ≡ map.get old name) → version_of table new ≡ Some (current + 1) }
{}
