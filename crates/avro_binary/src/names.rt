ghost use Rattle.std.specs.Prelude.{◌≡◌, ◌++◌, ◌∷◌, IfOk};
ghost use Rattle.std.specs.Option.{option_copied};
ghost use Rattle.avro_binary.specs.Naming.{dot_from, last_dot, space_of, full_name, find, has_begun};

use crate::schema::Schema;
use crate::word::is;
use plain_types::{Bytes as Octets, Items};
use std::alloc::{AllocError, Global};

/// A named type that is finished.
#[derive(Debug, Drop)]
pub struct Named {
    pub name: Octets,
    pub schema: Schema,
}

/// The named types of the text so far, and how many nodes may still follow.
#[derive(Debug, Drop)]
pub struct Names {
    pub finished: Items<Named>,
    pub begun: Items<Octets>,
    pub left: u64,
}

#[tactic(auto, unfolding(crate::specs::Naming::dot_from))]
fn last_dot(name: &[u8]) -> Option<usize>
    ensures { result ≡ last_dot name.now }
{
    let mut last = None;
    let mut at = 0usize;
    let mut rest = name;
    while let [byte, after @ ..] = rest {
        if *byte == b'.' {
            last = Some(at);
        }
        at = at.saturating_add(1);
        rest = after;
    }
    last
}

pub fn space_of(name: &[u8]) -> &[u8]
    ensures { result.now ≡ space_of name.now }
{
    match last_dot(name) {
        Some(at) => { if at <= name.len() { &name[..at] } else { name } }
        None => &name[..0],
    }
}

#[tactic(auto, unfolding(crate::specs::Naming::full_name))]
pub fn full_name(alloc: Global, space: &[u8], name: &[u8]) -> Result<Octets, AllocError>
    ensures { IfOk result (λ full. full ≡ full_name space.now name.now) }
{
    if last_dot(name).is_some() || space.is_empty() {
        return Octets::copy_of(alloc, name);
    }
    let mut full = Vec::from_slice(alloc, space)?;
    full.push(b'.')?;
    full.extend_from_slice(name)?;
    Ok(Octets::from_vec(full))
}

#[tactic(auto, unfolding(crate::specs::Naming::find))]
pub fn find<'a>(name: &[u8], finished: &'a [Named]) -> Option<&'a Schema>
    ensures { option_copied result ≡ find name.now finished.now }
{
    let mut rest = finished;
    while let [first, after @ ..] = rest {
        if is(first.name.as_slice(), name) {
            return Some(&first.schema);
        }
        rest = after;
    }
    None
}

#[tactic(auto, unfolding(crate::specs::Naming::has_begun))]
pub fn has_begun(name: &[u8], begun: &[Octets]) -> bool
    ensures { result ≡ has_begun name.now begun.now }
{
    let mut rest = begun;
    while let [first, after @ ..] = rest {
        if is(first.as_slice(), name) {
            return true;
        }
        rest = after;
    }
    false
}
