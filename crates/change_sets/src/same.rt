//! Which entries are of one file.
ghost use Rattle.std.specs.Prelude.{◌≡◌};
ghost use Rattle.change_sets.specs.Same.{amounts_alone, file_alone, is_among, same_file};

use manifest_files::Entry;

/// Whether two entries are of one file: all but their status agrees.
pub fn is_same_file(one: &Entry, other: &Entry) -> bool
    ensures { result ≡ same_file one.now other.now }
{
    one.snapshot == other.snapshot
        && one.seq == other.seq
        && one.file_seq == other.file_seq
        && has_same_place(one, other)
}

// Whether they agree beside their status and their numbers.
fn has_same_place(one: &Entry, other: &Entry) -> bool
    ensures { result ≡ same_file (file_alone one.now) (file_alone other.now) }
{
    one.content == other.content
        && one.path == other.path
        && one.spec == other.spec
        && one.partition == other.partition
        && has_same_amounts(one, other)
}

fn has_same_amounts(one: &Entry, other: &Entry) -> bool
    ensures { result ≡ same_file (amounts_alone one.now) (amounts_alone other.now) }
{
    one.count == other.count
        && one.size == other.size
        && one.stats == other.stats
        && one.equality_ids == other.equality_ids
        && one.referenced == other.referenced
}

/// Whether the file of the entry is among those of the entries.
#[tactic(auto, unfolding(crate::specs::Same::is_among))]
pub fn is_among(entries: &[Entry], entry: &Entry) -> bool
    ensures { result ≡ is_among entries.now entry.now }
{
    let mut rest = entries;
    while let [one, after @ ..] = rest {
        if is_same_file(one, entry) {
            return true;
        }
        rest = after;
    }
    false
}
