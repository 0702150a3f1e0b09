//! The names of a partition's fields.
ghost use Rattle.std.specs.Prelude.{◌≡◌, IfOk};
ghost use Rattle.std.specs.Str.{bytes_eq};
ghost use Rattle.manifest_writer.specs.PartNames.{has_name, are_names, part_name};

use avro_binary::Octets;
use row_values::PartField;
use row_writer::{id_name, is_name};
use std::alloc::{AllocError, Global};

fn is_same(name: &[u8], other: &[u8]) -> bool
    ensures { result ≡ bytes_eq name.now other.now }
{
    name == other
}

fn has_name(name: &[u8], parts: &[PartField]) -> bool
    ensures { result ≡ has_name name.now parts.now }
{
    let mut rest = parts;
    while let [part, after @ ..] = rest {
        if is_same(part.name.as_bytes(), name) {
            return true;
        }
        rest = after;
    }
    false
}

/// Whether each field has a name of Avro of its own.
#[tactic(auto, unfolding(crate::specs::PartNames::are_names))]
pub(crate) fn are_names(parts: &[PartField]) -> bool
    ensures { result ≡ are_names parts.now }
{
    let mut rest = parts;
    while let [part, after @ ..] = rest {
        if !is_name(part.name.as_bytes()) || has_name(part.name.as_bytes(), after) {
            return false;
        }
        rest = after;
    }
    true
}

pub(crate) fn part_name(alloc: Global, keeps: bool, part: &PartField) -> Result<Octets, AllocError>
    ensures { IfOk result (λ name. name ≡ part_name keeps part.now) }
{
    if keeps {
        return Octets::copy_of(alloc, part.name.as_bytes());
    }
    let name = id_name(alloc, part.field)?;
    Octets::copy_of(alloc, name.as_bytes())
}
