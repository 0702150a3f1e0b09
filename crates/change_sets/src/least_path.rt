// The file that a conflict names.
ghost use Rattle.std.specs.Prelude.{◌≡◌, option_map};
ghost use Rattle.change_sets.specs.Laid.{without};
ghost use Rattle.change_sets.specs.Verdict.{least_from, least_path, lower};

use crate::same::is_among;
use manifest_files::Entry;

// The lower of a path, where there is one, and another.
fn lower<'a>(least: Option<&'a str>, path: &'a str) -> &'a str
    ensures { result.now ≡ lower (option_map (λ least. least.now) least.entry) path.now }
{
    match least {
        Some(other) => { if path < other { path } else { other } }
        None => path,
    }
}

// The least path of these entries that are not among the others.
#[tactic(auto, unfolding(crate::specs::Verdict::least_from))]
pub(crate) fn least_missing<'a>(entries: &'a [Entry], others: &[Entry]) -> Option<&'a str>
    ensures { option_map (λ path. path.now) result ≡ least_path (without others.now entries.now) }
{
    let mut least = None;
    let mut rest = entries;
    while let [entry, after @ ..] = rest {
        if !is_among(others, entry) {
            least = Some(lower(least, entry.path.as_str()));
        }
        rest = after;
    }
    least
}
