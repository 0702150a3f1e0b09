//! What holds of all names. The law is the contract of a function that does nothing.
ghost use Rattle.std.specs.Prelude.{◌≡◌, ℕ, List as Seq, false};
ghost use Rattle.table_names.specs.FileNames.{NoneFrom};
ghost use Rattle.store_core.specs.Files.{Files};
ghost use Rattle.table_names.specs.Runs.{is_used};

/// Where no file bears a run's number, the names of all files of the run are free, for each session and from each number on.
pub fn a_fresh_run_has_free_names()
    ensures { (table session : Seq ℕ) (run from : ℕ) (files : Files) → is_used table run files ≡ false → NoneFrom table run session from files }
{}
