// The path that stands more than once among the files of a table.
ghost use Rattle.std.specs.Prelude.{◌≡◌, IfOk, map, option_map};
ghost use Rattle.dml_program.specs.Twice.{again, first_pair, is_first, least, twice};

use manifest_files::Entry;
use plain_types::one_list_in_byte_order;
use std::alloc::{AllocError, Global};

/// The least path in byte order that more than one of these entries has.
pub(crate) fn path_twice<'a>(
    alloc: Global,
    entries: &'a [Entry],
) -> Result<Option<&'a str>, AllocError>
    ensures { IfOk result (λ path. option_map (λ path. path.now) path ≡ twice entries.now) }
{
    let mut paths = paths_of(alloc, entries)?;
    Ok(least_again(paths.as_mut_slice()))
}

fn paths_of<'a>(alloc: Global, entries: &'a [Entry]) -> Result<Vec<&'a str>, AllocError>
    ensures { IfOk result (λ paths. map (λ path. path.now) paths.items ≡ map (λ entry. entry.path) entries.now) }
{
    let mut paths = Vec::new(alloc);
    for entry in entries {
        paths.push(entry.path.as_str())?;
    }
    Ok(paths)
}

// It changes the order of the paths.
fn least_again<'a>(paths: &mut [&'a str]) -> Option<&'a str>
    ensures { option_map (λ path. path.now) result ≡ least (again (map (λ path. path.now) paths.old)) }
{
    paths.sort_unstable();
    // A law: what is sorted is the only list in byte order of its bag.
    one_list_in_byte_order();
    first_pair(paths)
}

fn first_pair<'a>(paths: &[&'a str]) -> Option<&'a str>
    ensures { option_map (λ path. path.now) result ≡ first_pair (map (λ path. path.now) paths.now) }
{
    let mut rest = paths;
    while let [path, after @ ..] = rest {
        if is_first(path, after) {
            return Some(path);
        }
        rest = after;
    }
    None
}

fn is_first(path: &str, paths: &[&str]) -> bool
    ensures { result ≡ is_first path.now (map (λ path. path.now) paths.now) }
{
    match paths {
        [first, ..] => path == *first,
        [] => false,
    }
}
