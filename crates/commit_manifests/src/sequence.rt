//! The least sequence number of the live files.
ghost use Rattle.std.specs.Prelude.{◌≡◌};
ghost use Rattle.commit_manifests.specs.Rows.{with_number, least_from, least_number};

use manifest_files::Entry;

/// The lesser of a number and the entry's, where that is live.
fn with_number(least: Option<i64>, entry: &Entry) -> Option<i64>
    ensures { result ≡ with_number least entry.now }
{
    if !entry.is_live() {
        return least;
    }
    match least {
        Some(number) => Some(number.min(entry.seq)),
        None => Some(entry.seq),
    }
}

pub(crate) fn least_number(seq: i64, entries: &[Entry]) -> i64
    ensures { result ≡ least_number seq entries.now }
{
    let mut least = None;
    let mut rest = entries;
    while let [entry, after @ ..] = rest {
        least = with_number(least, entry);
        rest = after;
    }
    least.unwrap_or(seq)
}
