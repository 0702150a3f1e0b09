//! Partition values of live entries.
ghost use Rattle.std.specs.Prelude.{◌≡◌, option_map};
ghost use Rattle.commit_manifests.specs.Rows.{not_null, has_null, part_at};

use manifest_files::Entry;
use row_values::Value;

fn not_null(value: &Value) -> Option<&Value>
    ensures { option_map (λ v. v.now) result ≡ not_null value.now }
{
    if value.is_null() { None } else { Some(value) }
}

/// Whether a live entry has NULL at this place, or nothing.
pub(crate) fn has_null(place: usize, entry: &Entry) -> bool
    ensures { result ≡ has_null place entry.now }
{
    if !entry.is_live() {
        return false;
    }
    match entry.partition.get(place) {
        Some(value) => value.is_null(),
        None => true,
    }
}

/// The value of a live entry at this place, unless it is NULL.
pub(crate) fn part_at(place: usize, entry: &Entry) -> Option<&Value>
    ensures { option_map (λ v. v.now) result ≡ part_at place entry.now }
{
    if !entry.is_live() {
        return None;
    }
    match entry.partition.get(place) {
        Some(value) => not_null(value),
        None => None,
    }
}
