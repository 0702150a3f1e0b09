ghost use Rattle.std.specs.Prelude.{◌≡◌, option_map, string_bytes, IfOk, None, if◌then◌else◌};
ghost use Rattle.std.specs.Str.{is_utf8};
ghost use Rattle.table_names.specs.Paths.{folder_of, name_in, name_of, parts_behind, parts_of, plain_parts};

use plain_types::digits::after_text;
use plain_types::is_path;
use std::alloc::{AllocError, Global};

/// The store's name of a file of the table, by the path that the table's files know it by: `None` where the path does
/// not lie in the table, which is known by its location and stands in this folder of the store.
pub fn name_of(
    alloc: Global,
    table: &str,
    location: &str,
    path: &str,
) -> Result<Option<String>, AllocError>
    ensures { IfOk result (λ name. option_map string_bytes name ≡ name_of table.now location.now path.now) }
{
    match parts_of(location, path.as_bytes()) {
        Some(parts) => Ok(Some(name_in(alloc, table, parts)?)),
        None => Ok(None),
    }
}

fn name_in(alloc: Global, table: &str, parts: &str) -> Result<String, AllocError>
    ensures { IfOk result (λ name. string_bytes name ≡ name_in table.now parts.now) }
{
    format!(in alloc; "{table}/{parts}")
}

/// The location without one slash at its end.
pub fn folder_of(location: &str) -> &str
    ensures { result.now ≡ folder_of location.now }
{
    match location.strip_suffix("/") {
        Some(folder) => folder,
        None => location,
    }
}

#[tactic(auto, unfolding(crate::specs::Paths::parts_of))]
fn parts_of<'p>(location: &str, path: &'p [u8]) -> Option<&'p str>
    ensures { option_map (λ parts. parts.now) result ≡ parts_of location.now path.now }
{
    parts_behind(after_text(folder_of(location).as_bytes(), path)?)
}

fn parts_behind(bytes: &[u8]) -> Option<&str>
    ensures { option_map (λ parts. parts.now) result ≡ parts_behind bytes.now }
{
    match bytes {
        [b'/', parts @ ..] => text_parts(parts),
        _ => None,
    }
}

fn text_parts(parts: &[u8]) -> Option<&str>
    ensures { option_map (λ text. text.now) result ≡ (if is_utf8 parts.now then plain_parts parts.now else None) }
{
    match str::from_utf8(parts) {
        Ok(text) => plain_parts(text),
        Err(_) => None,
    }
}

fn plain_parts(parts: &str) -> Option<&str>
    ensures { option_map (λ text. text.now) result ≡ plain_parts parts.now }
{
    if is_path(parts) { Some(parts) } else { None }
}
