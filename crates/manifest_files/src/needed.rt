//! The values that each record has, of which a null is a fault of the field.
ghost use Rattle.std.specs.Prelude.{◌≡◌};
ghost use Rattle.plain_types.specs.Answers.{Answers};
ghost use Rattle.manifest_files.specs.Needed.{needed_text, needed_count, needed_int, needed_long};

use crate::ManifestFault;
use crate::datum_values::{int_at, long_at, natural_of, text_at};
use avro_binary::Datum;
use row_values::Text;
use std::alloc::Global;

pub(crate) fn needed_text(
    alloc: Global,
    id: i32,
    place: usize,
    values: &[Datum],
) -> Result<Text, ManifestFault>
    ensures answers { Answers ManifestFault.Memory (λ t. t) result (needed_text id place values.now) }
{
    match text_at(alloc, values, Some(place))? {
        Some(text) => Ok(text),
        None => Err(ManifestFault::Kind(id)),
    }
}

pub(crate) fn needed_count(id: i32, place: usize, values: &[Datum]) -> Result<u64, ManifestFault>
    ensures { result ≡ needed_count id place values.now }
{
    let Some(number) = long_at(values, Some(place)) else {
        return Err(ManifestFault::Kind(id));
    };
    match natural_of(number) {
        Some(count) => Ok(count),
        None => Err(ManifestFault::Kind(id)),
    }
}

pub(crate) fn needed_int(id: i32, place: usize, values: &[Datum]) -> Result<i32, ManifestFault>
    ensures { result ≡ needed_int id place values.now }
{
    match int_at(values, Some(place)) {
        Some(number) => Ok(number),
        None => Err(ManifestFault::Kind(id)),
    }
}

pub(crate) fn needed_long(id: i32, place: usize, values: &[Datum]) -> Result<i64, ManifestFault>
    ensures { result ≡ needed_long id place values.now }
{
    match long_at(values, Some(place)) {
        Some(number) => Ok(number),
        None => Err(ManifestFault::Kind(id)),
    }
}
