//! What holds of all tables. Each law is the contract of a function that does nothing.
ghost use Rattle.std.specs.Prelude.{◌≡◌, ℕ, List as Seq, Some, Ok};
ghost use Rattle.row_values.specs.declared.value.Value.{Value as Content};
ghost use Rattle.store_core.specs.Files.{Files, KeepsFiles};
ghost use Rattle.table_state.specs.declared.live_set.BranchState.{BranchState as State};
ghost use Rattle.table_state.specs.Live.{live_of, rows_of_branch};

/// A branch of a version, and its rows, stand when files are added to the store: none of the files that they are read
/// from goes or changes.
pub fn branches_stand_when_files_are_added()
    ensures live { (now later : Files) → KeepsFiles (Some now) (Some later)
        → (table : Seq ℕ) (version : ℕ) (branch : Seq ℕ) (state : State) → live_of table version branch now ≡ Ok state
        → live_of table version branch later ≡ Ok state }
    ensures rows { (now later : Files) → KeepsFiles (Some now) (Some later)
        → (table : Seq ℕ) (version : ℕ) (branch : Seq ℕ) (rows : Seq (Seq Content))
        → rows_of_branch table version branch now ≡ Ok rows → rows_of_branch table version branch later ≡ Ok rows }
{}
