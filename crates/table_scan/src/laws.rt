//! What holds of all scans. Each law is the contract of a function that does nothing.
ghost use Rattle.std.specs.Prelude.{◌≡◌, ℕ, List as Seq, Ok};
ghost use Rattle.store_core.specs.Files.{Files};
ghost use Rattle.manifest_files.specs.declared.entry.Entry.{Entry};
ghost use Rattle.sql_predicates.specs.declared.pred.Pred.{Pred};
ghost use Rattle.table_metadata.specs.Metadata.{Parts};
ghost use Rattle.change_sets.specs.declared.scanned.ScannedFile.{ScannedFile};
ghost use Rattle.table_scan.specs.Scanning.{scanned_at};
ghost use Rattle.table_scan.specs.Parting.{IsParted};

/// The rows of data files are those of the scanned files and of others, and the filter is True of no row of the others.
pub fn rows_of_a_branch_are_its_files()
    ensures { (table : Seq ℕ) (parts : Parts) (pred : Pred) (entries : Seq Entry) (files : Files) (scanned : Seq ScannedFile)
        → scanned_at table parts pred entries files ≡ Ok scanned → IsParted table parts pred entries files scanned }
{}
