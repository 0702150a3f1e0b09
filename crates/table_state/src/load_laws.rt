//! What holds of all that is loaded. Each law is the contract of a function that does nothing.
ghost use Rattle.std.specs.Prelude.{◌≡◌, ℕ, ℤ, List as Seq};
ghost use Rattle.store_core.specs.Files.{Files};
ghost use Rattle.manifest_files.specs.declared.manifest_row.ManifestRow.{ManifestRow};
ghost use Rattle.table_state.specs.declared.live_set.LiveSet.{LiveSet as Live};
ghost use Rattle.table_state.specs.declared.live_set.BranchState.TheVariants as branch_state;
ghost use Rattle.table_state.specs.declared.state.State.{State as Loaded};
ghost use Rattle.table_state.specs.States.{IsParted, IsStateOf};

/// Each manifest of a loaded head holds as many of the live files as its count says, in the order of the live set, and
/// together they hold all.
pub fn a_loaded_head_is_parted()
    ensures { (table branch : Seq ℕ) (version : ℕ) (files : Files) (loaded : Loaded) (snapshot : ℤ) (rows : Seq ManifestRow)
        (live : Live) → IsStateOf table version branch files loaded → loaded.head ≡ branch_state.Head snapshot rows live
        → IsParted rows loaded.held live.data_files live.deletes }
{}
