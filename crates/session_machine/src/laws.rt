//! What holds of all runs. The law is the contract of a function that does nothing.
ghost use Rattle.std.specs.Prelude.{◌≡◌, ℕ, List as Seq, Ok, Some};
ghost use Rattle.sql_statements.specs.declared.statement.Source.{Source};
ghost use Rattle.sql_statements.specs.declared.statement.Statement.{Statement};
ghost use Rattle.store_core.specs.Files.{Files, KeepsFiles};
ghost use Rattle.session_machine.specs.declared.place.Place.{Place as Stand};
ghost use Rattle.session_machine.specs.Machine.{Turned, turn};

/// A step that the files tell is the same when files are added.
pub fn a_turn_stands_when_files_are_added()
    ensures { (table : Seq ℕ) (sources : Seq Source) (old new : Files) (current : ℕ) (place : Stand) (statements : Seq Statement)
        (turned : Turned) → KeepsFiles (Some old) (Some new) → turn table sources old current place statements ≡ Ok turned
        → turn table sources new current place statements ≡ Ok turned }
{}
