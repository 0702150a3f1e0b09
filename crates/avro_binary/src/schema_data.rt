//! The JSON of a schema.

ghost use Rattle.std.specs.Prelude.{◌≡◌, ◌++◌, ◌∷◌, [], codes, map, IfOk, OnOk, string_bytes};
ghost use Rattle.std.specs.Str.Lossy.{utf8_lossy};
ghost use Rattle.serde_json.specs.Data.{string, array, object, no_members, put as with_member};
ghost use Rattle.serde_json.specs.View.{view, items_view, members_view};
ghost use Rattle.avro_binary.specs.SchemaData.{
  name_data,
  type_key,
  with_id,
  with_logical,
  with_map,
  named_keys,
  primitive,
  symbols,
  write_each,
  named,
  record_written,
  enum_written,
  fixed_written,
  array_written,
  map_written,
  union_written,
  written,
  written_field,
};

use crate::names::{has_begun, space_of};
use crate::schema::{Field, Logical, Schema};
use plain_types::Bytes as Octets;
use serde_json::{Map, Value, put};
use std::alloc::{AllocError, Global};

fn name_json(alloc: Global, name: &[u8]) -> Result<Value, AllocError>
    ensures { IfOk result (λ v. view v ≡ name_data name.now) }
{
    Ok(Value::String(String::from_utf8_lossy(alloc, name)?))
}

fn put_text(
    members: &mut Map<String, Value>,
    alloc: Global,
    key: &str,
    text: &str,
) -> Result<(), AllocError>
    ensures { OnOk result (members_view members.new.entries ≡ with_member key.now (string text.now) (members_view members.old.entries)) }
{
    put(members, alloc, key, Value::try_from_str(alloc, text)?)
}

fn put_name(
    members: &mut Map<String, Value>,
    alloc: Global,
    key: &str,
    name: &[u8],
) -> Result<(), AllocError>
    ensures { OnOk result (members_view members.new.entries ≡ with_member key.now (name_data name.now) (members_view members.old.entries)) }
{
    let name = name_json(alloc, name)?;
    put(members, alloc, key, name)?;
    Ok(())
}

fn type_key(alloc: Global, word: &str) -> Result<Map<String, Value>, AllocError>
    ensures { IfOk result (λ m. members_view m.entries ≡ type_key word.now) }
{
    let mut members = Map::new(alloc);
    put_text(&mut members, alloc, "type", word)?;
    Ok(members)
}

fn put_id(
    members: &mut Map<String, Value>,
    alloc: Global,
    key: &str,
    id: Option<i32>,
) -> Result<(), AllocError>
    ensures { OnOk result (members_view members.new.entries ≡ with_id key.now id (members_view members.old.entries)) }
{
    match id {
        None => Ok(()),
        Some(id) => put(members, alloc, key, Value::from(id)),
    }
}

fn put_decimal(
    members: &mut Map<String, Value>,
    alloc: Global,
    precision: u8,
    scale: u8,
) -> Result<(), AllocError>
    ensures { OnOk result (members_view members.new.entries ≡ with_logical (Logical.Decimal precision scale) (members_view members.old.entries)) }
{
    put_text(members, alloc, "logicalType", "decimal")?;
    put(members, alloc, "precision", Value::from(precision))?;
    put(members, alloc, "scale", Value::from(scale))
}

fn put_timestamp(
    members: &mut Map<String, Value>,
    alloc: Global,
    utc: bool,
) -> Result<(), AllocError>
    ensures { OnOk result (members_view members.new.entries ≡ with_logical (Logical.TimestampMicros utc) (members_view members.old.entries)) }
{
    put_text(members, alloc, "logicalType", "timestamp-micros")?;
    put(members, alloc, "adjust-to-utc", Value::from(utc))
}

fn put_logical(
    members: &mut Map<String, Value>,
    alloc: Global,
    logical: &Logical,
) -> Result<(), AllocError>
    ensures { OnOk result (members_view members.new.entries ≡ with_logical logical.now (members_view members.old.entries)) }
{
    match logical {
        Logical::Plain => Ok(()),
        Logical::Date => put_text(members, alloc, "logicalType", "date"),
        Logical::TimestampMicros { utc } => put_timestamp(members, alloc, *utc),
        Logical::Decimal { precision, scale } => put_decimal(members, alloc, *precision, *scale),
        Logical::Other(name) => put_name(members, alloc, "logicalType", name.as_slice()),
    }
}

fn named_keys(alloc: Global, word: &str, name: &[u8]) -> Result<Map<String, Value>, AllocError>
    ensures { IfOk result (λ m. members_view m.entries ≡ named_keys word.now name.now) }
{
    let mut members = type_key(alloc, word)?;
    put_name(&mut members, alloc, "name", name)?;
    put_name(&mut members, alloc, "namespace", space_of(name))?;
    Ok(members)
}

fn put_map(members: &mut Map<String, Value>, alloc: Global, map: bool) -> Result<(), AllocError>
    ensures { OnOk result (members_view members.new.entries ≡ with_map map (members_view members.old.entries)) }
{
    if map {
        put_text(members, alloc, "logicalType", "map")?;
    }
    Ok(())
}

fn primitive(alloc: Global, word: &str, logical: &Logical) -> Result<Value, AllocError>
    ensures { IfOk result (λ v. view v ≡ primitive word.now logical.now) }
{
    let mut members = type_key(alloc, word)?;
    put_logical(&mut members, alloc, logical)?;
    Ok(Value::Object(members))
}

fn symbols(alloc: Global, names: &[Octets]) -> Result<Value, AllocError>
    ensures { IfOk result (λ v. view v ≡ symbols names.now) }
{
    let mut items = Vec::new(alloc);
    for name in names {
        items.push(name_json(alloc, name.as_slice())?)?;
    }
    Ok(Value::Array(items))
}

/// The names so far, and one more.
fn and_name(alloc: Global, begun: Vec<Octets>, name: &[u8]) -> Result<Vec<Octets>, AllocError>
    ensures { IfOk result (λ v. v.items ≡ begun.items ++ name.now ∷ []) }
{
    let mut begun = begun;
    begun.push(Octets::copy_of(alloc, name)?)?;
    Ok(begun)
}

#[tactic(auto, unfolding(crate::specs::SchemaData::named))]
fn enum_json(
    alloc: Global,
    name: &[u8],
    names: &[Octets],
    begun: Vec<Octets>,
) -> Result<(Value, Vec<Octets>), AllocError>
    ensures { IfOk result (λ x. (view x.0, x.1.items) ≡ named name.now (enum_written name.now names.now) begun.items) }
{
    if has_begun(name, begun.as_slice()) {
        return Ok((name_json(alloc, name)?, begun));
    }
    let begun = and_name(alloc, begun, name)?;
    let mut members = named_keys(alloc, "enum", name)?;
    let names = symbols(alloc, names)?;
    put(&mut members, alloc, "symbols", names)?;
    Ok((Value::Object(members), begun))
}

#[tactic(auto, unfolding(crate::specs::SchemaData::named))]
fn fixed_json(
    alloc: Global,
    name: &[u8],
    size: u64,
    logical: &Logical,
    begun: Vec<Octets>,
) -> Result<(Value, Vec<Octets>), AllocError>
    ensures { IfOk result (λ x. (view x.0, x.1.items) ≡ named name.now (fixed_written name.now size logical.now) begun.items) }
{
    if has_begun(name, begun.as_slice()) {
        return Ok((name_json(alloc, name)?, begun));
    }
    let begun = and_name(alloc, begun, name)?;
    let mut members = named_keys(alloc, "fixed", name)?;
    put(&mut members, alloc, "size", Value::from(size))?;
    put_logical(&mut members, alloc, logical)?;
    Ok((Value::Object(members), begun))
}

#[cycle(schema_data)]
pub fn schema_json(
    alloc: Global,
    schema: &Schema,
    begun: Vec<Octets>,
) -> Result<(Value, Vec<Octets>), AllocError>
    ensures { IfOk result (λ x. (view x.0, x.1.items) ≡ written schema.now begun.items) }
{
    match schema {
        Schema::Null => Ok((Value::try_from_str(alloc, "null")?, begun)),
        Schema::Boolean => Ok((Value::try_from_str(alloc, "boolean")?, begun)),
        Schema::Int(logical) => Ok((primitive(alloc, "int", logical)?, begun)),
        Schema::Long(logical) => Ok((primitive(alloc, "long", logical)?, begun)),
        Schema::Bytes(logical) => Ok((primitive(alloc, "bytes", logical)?, begun)),
        Schema::Text => Ok((Value::try_from_str(alloc, "string")?, begun)),
        Schema::Record { name, fields } => record_json(
            alloc,
            name.as_slice(),
            fields.as_slice(),
            begun,
        ),
        Schema::Enum { name, symbols } => enum_json(
            alloc,
            name.as_slice(),
            symbols.as_slice(),
            begun,
        ),
        Schema::Array {
            items,
            element,
            map,
        } => array_json(alloc, items.get(), *element, *map, begun),
        Schema::Map {
            values,
            key_id,
            value_id,
        } => map_json(alloc, values.get(), *key_id, *value_id, begun),
        Schema::Union(branches) => union_json(alloc, branches.as_slice(), begun),
        Schema::Fixed {
            name,
            size,
            logical,
        } => fixed_json(alloc, name.as_slice(), *size, logical, begun),
    }
}

#[cycle(schema_data)]
#[tactic(auto, unfolding(crate::specs::SchemaData::named))]
fn record_json(
    alloc: Global,
    name: &[u8],
    fields: &[Field],
    begun: Vec<Octets>,
) -> Result<(Value, Vec<Octets>), AllocError>
    ensures { IfOk result (λ x. (view x.0, x.1.items) ≡ named name.now (record_written name.now (map written_field fields.now)) begun.items) }
{
    if has_begun(name, begun.as_slice()) {
        return Ok((name_json(alloc, name)?, begun));
    }
    let begun = and_name(alloc, begun, name)?;
    let mut members = named_keys(alloc, "record", name)?;
    let (fields, begun) = fields_json(alloc, fields, begun)?;
    put(&mut members, alloc, "fields", Value::Array(fields))?;
    Ok((Value::Object(members), begun))
}

#[cycle(schema_data)]
fn fields_json(
    alloc: Global,
    fields: &[Field],
    begun: Vec<Octets>,
) -> Result<(Vec<Value>, Vec<Octets>), AllocError>
    ensures { IfOk result (λ x. (map view x.0.items, x.1.items) ≡ write_each (map written_field fields.now) begun.items) }
{
    let mut items = Vec::new(alloc);
    let mut names = begun;
    for field in fields {
        let (item, more) = field_json(alloc, field, names)?;
        items.push(item)?;
        names = more;
    }
    Ok((items, names))
}

#[cycle(schema_data)]
fn field_json(
    alloc: Global,
    field: &Field,
    begun: Vec<Octets>,
) -> Result<(Value, Vec<Octets>), AllocError>
    ensures { IfOk result (λ x. (view x.0, x.1.items) ≡ written_field field.now begun.items) }
{
    let mut members = Map::new(alloc);
    put_name(&mut members, alloc, "name", field.name.as_slice())?;
    let (inner, begun) = schema_json(alloc, &field.schema, begun)?;
    put(&mut members, alloc, "type", inner)?;
    put_id(&mut members, alloc, "field-id", field.id)?;
    Ok((Value::Object(members), begun))
}

#[cycle(schema_data)]
fn array_json(
    alloc: Global,
    items: &Schema,
    element: Option<i32>,
    map: bool,
    begun: Vec<Octets>,
) -> Result<(Value, Vec<Octets>), AllocError>
    ensures { IfOk result (λ x. (view x.0, x.1.items) ≡ array_written (written items.now) element map begun.items) }
{
    let mut members = type_key(alloc, "array")?;
    let (inner, begun) = schema_json(alloc, items, begun)?;
    put(&mut members, alloc, "items", inner)?;
    put_id(&mut members, alloc, "element-id", element)?;
    put_map(&mut members, alloc, map)?;
    Ok((Value::Object(members), begun))
}

#[cycle(schema_data)]
fn map_json(
    alloc: Global,
    values: &Schema,
    key: Option<i32>,
    value: Option<i32>,
    begun: Vec<Octets>,
) -> Result<(Value, Vec<Octets>), AllocError>
    ensures { IfOk result (λ x. (view x.0, x.1.items) ≡ map_written (written values.now) key value begun.items) }
{
    let mut members = type_key(alloc, "map")?;
    let (inner, begun) = schema_json(alloc, values, begun)?;
    put(&mut members, alloc, "values", inner)?;
    put_id(&mut members, alloc, "key-id", key)?;
    put_id(&mut members, alloc, "value-id", value)?;
    Ok((Value::Object(members), begun))
}

#[cycle(schema_data)]
fn union_json(
    alloc: Global,
    branches: &[Schema],
    begun: Vec<Octets>,
) -> Result<(Value, Vec<Octets>), AllocError>
    ensures { IfOk result (λ x. (view x.0, x.1.items) ≡ union_written (map written branches.now) begun.items) }
{
    let (items, begun) = branches_json(alloc, branches, begun)?;
    Ok((Value::Array(items), begun))
}

#[cycle(schema_data)]
fn branches_json(
    alloc: Global,
    branches: &[Schema],
    begun: Vec<Octets>,
) -> Result<(Vec<Value>, Vec<Octets>), AllocError>
    ensures { IfOk result (λ x. (map view x.0.items, x.1.items) ≡ write_each (map written branches.now) begun.items) }
{
    let mut items = Vec::new(alloc);
    let mut names = begun;
    for branch in branches {
        let (item, more) = schema_json(alloc, branch, names)?;
        items.push(item)?;
        names = more;
    }
    Ok((items, names))
}
