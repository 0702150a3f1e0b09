//! How many files and rows a manifest has of each status.
ghost use Rattle.std.specs.Prelude.{◌≡◌};
ghost use Rattle.commit_manifests.specs.Rows.{rows_in, files_with, rows_with};

use manifest_files::Entry;

/// The most files that a row can count.
const MOST_FILES: usize = i32::MAX as usize;

/// The most rows that a row can count.
const MOST_ROWS: u64 = i64::MAX as u64;

pub(crate) fn files_with(status: u8, entries: &[Entry]) -> i32
    ensures { result ≡ files_with status entries.now }
{
    let count = entries
        .iter()
        .filter(|entry| entry.status == status)
        .count();
    count.min(MOST_FILES) as i32
}

fn rows_in(status: u8, entry: &Entry) -> u64
    ensures { result ≡ rows_in status entry.now }
{
    if entry.status == status {
        entry.count
    } else {
        0
    }
}

pub(crate) fn rows_with(status: u8, entries: &[Entry]) -> i64
    ensures { result ≡ rows_with status entries.now }
{
    let mut rows: u64 = 0;
    for entry in entries {
        rows = rows.saturating_add(rows_in(status, entry));
    }
    rows.min(MOST_ROWS) as i64
}
