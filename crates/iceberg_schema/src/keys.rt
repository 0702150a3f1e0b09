//! What stands under a key of an object, where it has the form that is asked for.
ghost use Rattle.std.specs.Prelude.{◌≡◌, option_map};
ghost use Rattle.serde_json.specs.View.{view, items_view, members_view};
ghost use Rattle.iceberg_schema.specs.Keys.{
  long_at,
  int_at,
  in_int,
  text_at,
  bool_at,
  items_at,
  members_at,
  item_count,
  whole_of,
  is_id,
  has_id,
  has_twice,
  all_objects,
};

use serde_json::{Map, Value};

/// The whole number of 64 bits under a key.
pub fn long_at(json: &Value, key: &str) -> Option<i64>
    ensures { result ≡ long_at key.now (view json.now) }
{
    json.get(key).and_then(Value::as_i64)
}

/// The number, where it is one of 32 bits.
pub fn in_int(number: i64) -> Option<i32>
    ensures { result ≡ in_int number }
{
    if i64::from(i32::MIN) <= number && number <= i64::from(i32::MAX) {
        Some(number as i32)
    } else {
        None
    }
}

/// The whole number of 32 bits under a key.
pub fn int_at(json: &Value, key: &str) -> Option<i32>
    ensures { result ≡ int_at key.now (view json.now) }
{
    long_at(json, key).and_then(in_int)
}

/// The text under a key.
pub fn text_at<'v>(json: &'v Value, key: &str) -> Option<&'v str>
    ensures { option_map (λ s. s.now) result ≡ text_at key.now (view json.now) }
{
    json.get(key).and_then(Value::as_str)
}

/// The truth value under a key.
pub fn bool_at(json: &Value, key: &str) -> Option<bool>
    ensures { result ≡ bool_at key.now (view json.now) }
{
    json.get(key).and_then(Value::as_bool)
}

/// The elements of the array under a key.
pub fn items_at<'v>(json: &'v Value, key: &str) -> Option<&'v [Value]>
    ensures { option_map (λ v. items_view v.now) result ≡ items_at key.now (view json.now) }
{
    match json.get(key).and_then(Value::as_array) {
        Some(items) => Some(items.as_slice()),
        None => None,
    }
}

/// The members of the object under a key.
pub fn members_at<'v>(json: &'v Value, key: &str) -> Option<&'v Map<String, Value>>
    ensures { option_map (λ m. members_view m.now.entries) result ≡ members_at key.now (view json.now) }
{
    json.get(key).and_then(Value::as_object)
}

/// How many elements the list has.
#[tactic(auto, using(crate::proofs::Items::counts_items))]
pub fn item_count(items: &[Value]) -> usize
    ensures { result ≡ item_count (items_view items.now) }
{
    items.len()
}

/// A whole number, also one above `i64::MAX`.
pub fn whole_of(json: &Value) -> Option<i128>
    ensures { result ≡ whole_of (view json.now) }
{
    if let Some(number) = json.as_u64() {
        return Some(i128::from(number));
    }
    match json.as_i64() {
        Some(number) => Some(i128::from(number)),
        None => None,
    }
}

/// Whether the value under the key of this element is the number.
fn is_id(key: &str, id: i64, json: &Value) -> bool
    ensures { result ≡ is_id key.now id (view json.now) }
{
    match long_at(json, key) {
        Some(number) => number == id,
        None => false,
    }
}

/// Whether an element has the number under the key.
#[tactic(auto, unfolding(crate::specs::Keys::has_id))]
pub fn has_id(key: &str, id: i64, items: &[Value]) -> bool
    ensures { result ≡ has_id key.now id (items_view items.now) }
{
    let mut rest = items;
    while let [first, after @ ..] = rest {
        if is_id(key, id, first) {
            return true;
        }
        rest = after;
    }
    false
}

/// Whether two elements have one number under the key.
#[tactic(auto, unfolding(crate::specs::Keys::has_twice))]
pub fn has_twice(key: &str, items: &[Value]) -> bool
    ensures { result ≡ has_twice key.now (items_view items.now) }
{
    let mut rest = items;
    while let [first, after @ ..] = rest {
        if let Some(id) = long_at(first, key) {
            if has_id(key, id, after) {
                return true;
            }
        }
        rest = after;
    }
    false
}

/// Whether each element is an object.
#[tactic(auto, unfolding(crate::specs::Keys::all_objects))]
pub fn all_objects(items: &[Value]) -> bool
    ensures { result ≡ all_objects (items_view items.now) }
{
    let mut rest = items;
    while let [first, after @ ..] = rest {
        if !first.is_object() {
            return false;
        }
        rest = after;
    }
    true
}
