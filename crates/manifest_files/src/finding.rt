//! Finds fields by their ids.
ghost use Rattle.std.specs.Prelude.{◌≡◌, option_map};
ghost use Rattle.manifest_files.specs.Places.{
  field_at,
  typed,
  needed,
  optional,
  optional_items,
  fields_under,
  fields_of_items,
  typed_at,
  no_pairs,
  pairs_in,
  pairs,
};

use crate::ManifestFault;
use crate::field_type::{FieldType, element_fields, has_items, has_type, record_fields};
use crate::places::PairPlaces;
use avro_binary::Field;
use avro_rows::has_id;

/// The first field with the id, and its place.
#[tactic(auto, unfolding(crate::specs::Places::field_from))]
pub(crate) fn field_at(id: i32, fields: &[Field]) -> Option<(usize, &Field)>
    ensures { option_map (λ x. (x.0, x.1.now)) result ≡ field_at id fields.now }
{
    let mut place = 0;
    let mut rest = fields;
    while let [field, after @ ..] = rest {
        if has_id(id, field) {
            return Some((place, field));
        }
        place += 1;
        rest = after;
    }
    None
}

fn typed(wanted: FieldType, id: i32, place: usize, field: &Field) -> Result<usize, ManifestFault>
    ensures { result ≡ typed wanted id (place, field.now) }
{
    if has_type(wanted, &field.schema) {
        Ok(place)
    } else {
        Err(ManifestFault::Kind(id))
    }
}

/// The place of a field that every file has.
pub(crate) fn needed(wanted: FieldType, id: i32, fields: &[Field]) -> Result<usize, ManifestFault>
    ensures { result ≡ needed wanted id fields.now }
{
    match field_at(id, fields) {
        Some((place, field)) => typed(wanted, id, place, field),
        None => Err(ManifestFault::Field(id)),
    }
}

/// The place of a field that a file may lack.
pub(crate) fn optional(
    wanted: FieldType,
    id: i32,
    fields: &[Field],
) -> Result<Option<usize>, ManifestFault>
    ensures { result ≡ optional wanted id fields.now }
{
    match field_at(id, fields) {
        Some((place, field)) => Ok(Some(typed(wanted, id, place, field)?)),
        None => Ok(None),
    }
}

/// The place of an array of this type.
pub(crate) fn optional_items(
    wanted: FieldType,
    id: i32,
    fields: &[Field],
) -> Result<Option<usize>, ManifestFault>
    ensures { result ≡ optional_items wanted id fields.now }
{
    match field_at(id, fields) {
        Some((place, field)) => {
            if has_items(wanted, &field.schema) {
                Ok(Some(place))
            } else {
                Err(ManifestFault::Kind(id))
            }
        }
        None => Ok(None),
    }
}

/// The fields of the record under the id.
pub(crate) fn fields_under(id: i32, fields: &[Field]) -> &[Field]
    ensures { result.now ≡ fields_under id fields.now }
{
    match field_at(id, fields) {
        Some((_, field)) => record_fields(&field.schema),
        None => &[],
    }
}

/// The fields of the array's records under the id.
pub(crate) fn fields_of_items(id: i32, fields: &[Field]) -> &[Field]
    ensures { result.now ≡ fields_of_items id fields.now }
{
    match field_at(id, fields) {
        Some((_, field)) => element_fields(&field.schema),
        None => &[],
    }
}

fn typed_at(wanted: FieldType, id: i32, fields: &[Field]) -> Option<usize>
    ensures { result ≡ typed_at wanted id fields.now }
{
    match field_at(id, fields) {
        Some((place, field)) => {
            if has_type(wanted, &field.schema) {
                Some(place)
            } else {
                None
            }
        }
        None => None,
    }
}

/// The places in the pairs of a map that stands at a place.
fn pairs_in(
    wanted: FieldType,
    key: i32,
    value: i32,
    place: usize,
    fields: &[Field],
) -> Option<PairPlaces>
    ensures { result ≡ pairs_in wanted key value place fields.now }
{
    let key = typed_at(FieldType::Int, key, fields)?;
    let value = typed_at(wanted, value, fields)?;
    Some(PairPlaces {
        place: Some(place),
        key,
        value,
    })
}

/// No map.
fn no_pairs() -> PairPlaces
    ensures { result ≡ no_pairs }
{
    PairPlaces {
        place: None,
        key: 0,
        value: 0,
    }
}

/// The places of a map whose keys are whole numbers.
pub(crate) fn pairs(
    wanted: FieldType,
    id: i32,
    key: i32,
    value: i32,
    fields: &[Field],
) -> Result<PairPlaces, ManifestFault>
    ensures { result ≡ pairs wanted id key value fields.now }
{
    match field_at(id, fields) {
        Some((place, field)) => {
            match pairs_in(wanted, key, value, place, element_fields(&field.schema)) {
                Some(found) => Ok(found),
                None => Err(ManifestFault::Kind(id)),
            }
        }
        None => Ok(no_pairs()),
    }
}
