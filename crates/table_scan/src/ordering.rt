// Files in the byte order of their paths.
ghost use Rattle.std.specs.Prelude.{◌≡◌, ◌≤◌, OnOk, length};
ghost use Rattle.table_scan.specs.Scanning.{place_of, with_file, with_hit};

use crate::live_rows::has_hit;
use change_sets::ScannedFile;
use std::alloc::AllocError;

// How many files at the front have a path that is not above this one.
#[tactic(auto, unfolding(crate::specs::Scanning::place_of))]
fn place_of(path: &str, files: &[ScannedFile]) -> usize
    ensures place { result ≡ place_of path.now files.now }
    ensures within { result ≤ length files.now }
{
    let mut place = 0;
    let mut rest = files;
    while let [file, after @ ..] = rest {
        if path < file.entry.path.as_str() {
            return place;
        }
        place += 1;
        rest = after;
    }
    place
}

fn place(file: ScannedFile, files: &mut Vec<ScannedFile>) -> Result<(), AllocError>
    ensures { OnOk result (files.new.items ≡ with_file file files.old.items) }
{
    let place = place_of(file.entry.path.as_str(), files.as_slice());
    files.insert(place, file)?;
    Ok(())
}

// Puts a file that has a row that is hit at its place.
#[tactic(auto, unfolding(crate::specs::Scanning::with_hit))]
pub(crate) fn place_hit(file: ScannedFile, files: &mut Vec<ScannedFile>) -> Result<(), AllocError>
    ensures { OnOk result (files.new.items ≡ with_hit file files.old.items) }
{
    if has_hit(&file) {
        place(file, files)?;
    }
    Ok(())
}
