// The names of a list of files, each once, in byte order.
ghost use Rattle.std.specs.Prelude.{◌≡◌, ◌≤◌, ◌∷◌, ◌++◌, ℕ, length, take, drop, insert, filter, nat_eq, map, IfOk, OnOk, MatchOption};
ghost use Rattle.std.specs.FinMap as finite;
ghost use Rattle.std.specs.List.{starts_with};
ghost use Rattle.store_core.specs.Memory.{files_of};
ghost use Rattle.store_core.specs.Names.{with_name};

use crate::File;
use plain_types::Text as Name;
use std::alloc::{AllocError, Global};
use std::cmp::Ordering;

pub(crate) fn names_of(alloc: Global, files: &[File]) -> Result<Vec<Name>, AllocError>
    ensures { IfOk result (λ names. names.items ≡ finite.keys (files_of files.now)) }
{
    let mut names = Vec::new(alloc);
    for left in (0..files.len()).rev() {
        add_name(alloc, &mut names, files[left].name.as_str())?;
    }
    Ok(names)
}

// Adds a name at its place, unless it is there.
fn add_name(alloc: Global, names: &mut Vec<Name>, name: &str) -> Result<(), AllocError>
    ensures { OnOk result (names.new.items ≡ with_name name.now names.old.items) }
{
    if let Some(at) = place_of(names, name) {
        names.insert(at, Name::copy_of(alloc, name)?)?;
    }
    Ok(())
}

// Where a name that isn't there belongs.
fn place_of(names: &[Name], name: &str) -> Option<usize>
    ensures { MatchOption result (with_name name.now names.now ≡ names.now)
        (λ at. (at ≤ length names.now) × (with_name name.now names.now ≡ insert names.now at name.now)) }
{
    for (at, held) in names.iter().enumerate() {
        match name.cmp(held.as_str()) {
            Ordering::Less => return Some(at),
            Ordering::Equal => return None,
            Ordering::Greater => {}
        }
    }
    Some(names.len())
}

/// The names that begin with a prefix, in their order.
pub(crate) fn with_prefix(
    alloc: Global,
    names: Vec<Name>,
    prefix: &str,
) -> Result<Vec<Name>, AllocError>
    ensures { IfOk result (λ kept. kept.items ≡ filter (λ name. starts_with nat_eq name prefix.now) names.items) }
{
    let mut kept = Vec::new(alloc);
    for name in names {
        if name.as_bytes().starts_with(prefix.as_bytes()) {
            kept.push(name)?;
        }
    }
    Ok(kept)
}
