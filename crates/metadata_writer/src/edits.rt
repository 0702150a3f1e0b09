//! Edits of a JSON object, one key at a time.
ghost use Rattle.std.specs.Prelude.{◌≡◌, IfOk};
ghost use Rattle.serde_json.specs.Data.{string, array, object, no_members};
ghost use Rattle.serde_json.specs.View.{view, items_view};
ghost use Rattle.serde_json.specs.Find.{as_object};
ghost use Rattle.plain_types.specs.Steps.{by_option};
ghost use Rattle.metadata_writer.specs.Commit.{and_item, with_key, items_in, object_in, with_item, with_long, long_data};

use serde_json::{Map, Value, put};
use std::alloc::{AllocError, Global};

/// The object with the value under the key.
#[tactic(auto, unfolding(crate::specs::Commit::with_key))]
pub(crate) fn with_key(
    alloc: Global,
    json: Value,
    key: &str,
    value: Value,
) -> Result<Value, AllocError>
    ensures { IfOk result (λ v. view v ≡ with_key key.now (view value) (view json)) }
{
    match json {
        Value::Object(members) => {
            let mut members = members;
            put(&mut members, alloc, key, value)?;
            Ok(Value::Object(members))
        }
        other => Ok(other),
    }
}

pub(crate) fn with_text(
    alloc: Global,
    json: Value,
    key: &str,
    text: &str,
) -> Result<Value, AllocError>
    ensures { IfOk result (λ v. view v ≡ with_key key.now (string text.now) (view json)) }
{
    let value = Value::try_from_str(alloc, text)?;
    with_key(alloc, json, key, value)
}

pub(crate) fn with_number(
    alloc: Global,
    json: Value,
    key: &str,
    number: &i64,
) -> Result<Value, AllocError>
    ensures { IfOk result (λ v. view v ≡ with_key key.now (long_data number.now) (view json)) }
{
    with_key(alloc, json, key, Value::from(*number))
}

pub(crate) fn with_int(
    alloc: Global,
    json: Value,
    key: &str,
    number: &i32,
) -> Result<Value, AllocError>
    ensures { IfOk result (λ v. view v ≡ with_key key.now (long_data number.now) (view json)) }
{
    with_key(alloc, json, key, Value::from(*number))
}

pub(crate) fn with_long(
    alloc: Global,
    json: Value,
    key: &str,
    number: Option<i64>,
) -> Result<Value, AllocError>
    ensures { IfOk result (λ v. view v ≡ with_long key.now number (view json)) }
{
    match number {
        None => Ok(json),
        Some(number) => with_number(alloc, json, key, &number),
    }
}

pub(crate) fn empty_object(alloc: Global) -> Value
    ensures { view result ≡ object no_members }
{
    Value::Object(Map::new(alloc))
}

/// A copy of the elements of the array under the key, or none.
#[tactic(auto, unfolding(crate::specs::Commit::items_in))]
fn items_in(alloc: Global, json: &Value, key: &str) -> Result<Vec<Value>, AllocError>
    ensures { IfOk result (λ items. items_view items.items ≡ items_in key.now (view json.now)) }
{
    match json.get(key).and_then(Value::as_array) {
        Some(items) => copied(alloc, items.as_slice()),
        None => Ok(Vec::new(alloc)),
    }
}

fn copied(alloc: Global, items: &[Value]) -> Result<Vec<Value>, AllocError>
    ensures { IfOk result (λ copies. items_view copies.items ≡ items_view items.now) }
{
    let mut copies = Vec::new(alloc);
    for item in items {
        copies.push(item.clone()?)?;
    }
    Ok(copies)
}

/// A copy of the object under the key, or an empty one.
#[tactic(auto, unfolding(crate::specs::Commit::object_in))]
pub(crate) fn object_in(alloc: Global, json: &Value, key: &str) -> Result<Value, AllocError>
    ensures { IfOk result (λ v. view v ≡ object_in key.now (view json.now)) }
{
    match json.get(key) {
        Some(value) => object_or_empty(alloc, value),
        None => Ok(empty_object(alloc)),
    }
}

/// A copy of the value, where it is an object, or an empty one.
fn object_or_empty(alloc: Global, value: &Value) -> Result<Value, AllocError>
    ensures { IfOk result (λ v. view v ≡ by_option (as_object (view value.now)) object (object no_members)) }
{
    match value {
        Value::Object(_) => value.clone(),
        _ => Ok(empty_object(alloc)),
    }
}

/// The elements of the array under the key, and one more.
fn array_and(alloc: Global, json: &Value, key: &str, value: Value) -> Result<Value, AllocError>
    ensures { IfOk result (λ v. view v ≡ array (and_item (view value) (items_in key.now (view json.now)))) }
{
    let mut items = items_in(alloc, json, key)?;
    items.push(value)?;
    Ok(Value::Array(items))
}

/// The object, with one more element in the array under the key.
#[tactic(auto, unfolding(crate::specs::Commit::with_item))]
pub(crate) fn with_item(
    alloc: Global,
    json: Value,
    key: &str,
    value: Value,
) -> Result<Value, AllocError>
    ensures { IfOk result (λ v. view v ≡ with_item key.now (view value) (view json)) }
{
    let items = array_and(alloc, &json, key, value)?;
    with_key(alloc, json, key, items)
}
