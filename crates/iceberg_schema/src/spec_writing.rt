//! The JSON of a partition spec's fields.
ghost use Rattle.std.specs.Prelude.{◌≡◌, IfOk, map, string_bytes};
ghost use Rattle.serde_json.specs.View.{view};
ghost use Rattle.iceberg_schema.specs.SpecData.{transform_text, part_data, spec_data, spec_text};

use crate::members::{put_int, put_text};
use plain_types::Bytes;
use row_values::{PartField, Spec, Transform};
use serde_json::{Map, Value};
use std::alloc::{AllocError, Global};

fn bucket_text(alloc: Global, count: u32) -> Result<String, AllocError>
    ensures { IfOk result (λ text. string_bytes text ≡ transform_text (Transform.Bucket count)) }
{
    format!(in alloc; "bucket[{count}]")
}

fn truncate_text(alloc: Global, width: u32) -> Result<String, AllocError>
    ensures { IfOk result (λ text. string_bytes text ≡ transform_text (Transform.Truncate width)) }
{
    format!(in alloc; "truncate[{width}]")
}

fn transform_text(alloc: Global, transform: Transform) -> Result<String, AllocError>
    ensures { IfOk result (λ text. string_bytes text ≡ transform_text transform) }
{
    match transform {
        Transform::Identity => String::from_str(alloc, "identity"),
        Transform::Bucket(count) => bucket_text(alloc, count),
        Transform::Truncate(width) => truncate_text(alloc, width),
        Transform::Year => String::from_str(alloc, "year"),
        Transform::Month => String::from_str(alloc, "month"),
        Transform::Day => String::from_str(alloc, "day"),
        Transform::Hour => String::from_str(alloc, "hour"),
        Transform::Void => String::from_str(alloc, "void"),
    }
}

fn part_json(alloc: Global, part: &PartField) -> Result<Value, AllocError>
    ensures { IfOk result (λ v. view v ≡ part_data part.now) }
{
    let transform = transform_text(alloc, part.transform)?;
    let mut members = Map::new(alloc);
    put_int(&mut members, alloc, "source-id", part.source)?;
    put_int(&mut members, alloc, "field-id", part.field)?;
    put_text(&mut members, alloc, "name", part.name.as_str())?;
    put_text(&mut members, alloc, "transform", transform.as_str())?;
    Ok(Value::Object(members))
}

fn parts_json(alloc: Global, parts: &[PartField]) -> Result<Vec<Value>, AllocError>
    ensures { IfOk result (λ items. map view items.items ≡ map part_data parts.now) }
{
    let mut items = Vec::new(alloc);
    for part in parts {
        items.push(part_json(alloc, part)?)?;
    }
    Ok(items)
}

fn spec_json(alloc: Global, spec: &Spec) -> Result<Value, AllocError>
    ensures { IfOk result (λ v. view v ≡ spec_data spec.now) }
{
    let parts = parts_json(alloc, spec.fields.as_slice())?;
    Ok(Value::Array(parts))
}

/// The compact JSON of a spec's fields.
#[tactic(auto, using(crate::proofs::NoFloats::spec_no_float))]
pub fn spec_text(alloc: Global, spec: &Spec) -> Result<Bytes, AllocError>
    ensures { IfOk result (λ text. text ≡ spec_text spec.now) }
{
    let json = spec_json(alloc, spec)?;
    Ok(Bytes::from_vec(json.to_vec(alloc)?))
}
