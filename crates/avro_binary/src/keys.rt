//! What the keys of a schema's JSON node say.

ghost use Rattle.std.specs.Prelude.{◌≡◌, codes, unwrap_or, option_map, option_and_then, IfOk, false};
ghost use Rattle.serde_json.specs.Data.{Data};
ghost use Rattle.serde_json.specs.View.{view, items_view};
ghost use Rattle.serde_json.specs.Find.{get, as_array, as_bool};
ghost use Rattle.avro_binary.specs.SchemaText.{text_at, number_at, narrow, id_at, decimal, or_zero, logical_named, logical_of, is_map, type_name};
ghost use Rattle.plain_types.specs.Answers.{Answers};

use crate::schema::Logical;
use crate::word::is;
use plain_types::Bytes as Octets;
use serde_json::Value;
use std::alloc::{AllocError, Global};

pub fn text_at<'a>(json: &'a Value, key: &str) -> Option<&'a str>
    ensures { option_map (λ text. text.now) result ≡ text_at key.now (view json.now) }
{
    match json.get(key) {
        Some(value) => value.as_str(),
        None => None,
    }
}

pub fn array_at<'a>(json: &'a Value, key: &str) -> Option<&'a Vec<Value>>
    ensures { option_map (λ items. items_view items.now.items) result ≡ option_and_then as_array (get key.now (view json.now)) }
{
    match json.get(key) {
        Some(value) => value.as_array(),
        None => None,
    }
}

pub fn number_at(json: &Value, key: &str) -> Option<u64>
    ensures { result ≡ number_at key.now (view json.now) }
{
    match json.get(key) {
        Some(value) => value.as_u64(),
        None => None,
    }
}

fn narrow(number: i64) -> Option<i32>
    ensures { result ≡ narrow number }
{
    if number <= 2147483647 && -2147483648 <= number {
        Some(number as i32)
    } else {
        None
    }
}

#[tactic(auto, unfolding(crate::specs::SchemaText::id_at))]
pub fn id_at(json: &Value, key: &str) -> Option<i32>
    ensures { result ≡ id_at key.now (view json.now) }
{
    match json.get(key) {
        Some(value) => match value.as_i64() {
            Some(number) => narrow(number),
            None => None,
        },
        None => None,
    }
}

fn scale_of(json: &Value) -> Option<u64>
    ensures { result ≡ or_zero (get (codes "scale") (view json.now)) }
{
    match json.get("scale") {
        Some(value) => value.as_u64(),
        None => Some(0),
    }
}

fn utc_of(json: &Value) -> bool
    ensures { result ≡ unwrap_or (option_and_then as_bool (get (codes "adjust-to-utc") (view json.now))) false }
{
    match json.get("adjust-to-utc") {
        Some(value) => match value.as_bool() {
            Some(utc) => utc,
            None => false,
        },
        None => false,
    }
}

fn other(alloc: Global, name: &[u8]) -> Result<Logical, AllocError>
    ensures { IfOk result (λ logical. logical ≡ Logical.Other name.now) }
{
    Ok(Logical::Other(Octets::copy_of(alloc, name)?))
}

#[tactic(auto, unfolding(crate::specs::SchemaText::decimal))]
fn decimal(alloc: Global, precision: Option<u64>, scale: Option<u64>) -> Result<Logical, AllocError>
    ensures { IfOk result (λ logical. logical ≡ decimal precision scale) }
{
    match precision {
        Some(precision) => match scale {
            Some(scale) => {
                if 1 <= precision && precision <= 38 && scale <= precision {
                    Ok(Logical::Decimal {
                        precision: precision as u8,
                        scale: scale as u8,
                    })
                } else {
                    other(alloc, b"decimal")
                }
            }
            None => other(alloc, b"decimal"),
        },
        None => other(alloc, b"decimal"),
    }
}

#[tactic(auto, unfolding(crate::specs::SchemaText::logical_named))]
fn logical_named(alloc: Global, name: &[u8], json: &Value) -> Result<Logical, AllocError>
    ensures { IfOk result (λ logical. logical ≡ logical_named name.now (view json.now)) }
{
    if is(name, b"date") {
        Ok(Logical::Date)
    } else if is(name, b"timestamp-micros") {
        Ok(Logical::TimestampMicros { utc: utc_of(json) })
    } else if is(name, b"decimal") {
        decimal(alloc, number_at(json, "precision"), scale_of(json))
    } else {
        other(alloc, name)
    }
}

#[tactic(auto, unfolding(crate::specs::SchemaText::logical_of))]
pub fn logical_of(alloc: Global, json: &Value) -> Result<Logical, AllocError>
    ensures { IfOk result (λ logical. logical ≡ logical_of (view json.now)) }
{
    match text_at(json, "logicalType") {
        Some(name) => logical_named(alloc, name.as_bytes(), json),
        None => Ok(Logical::Plain),
    }
}

#[tactic(auto, unfolding(crate::specs::SchemaText::is_map))]
pub fn is_map(json: &Value) -> bool
    ensures { result ≡ is_map (view json.now) }
{
    match text_at(json, "logicalType") {
        Some(name) => is(name.as_bytes(), b"map"),
        None => false,
    }
}

#[tactic(auto, unfolding(crate::specs::SchemaText::type_name))]
pub fn type_name(json: &Value) -> Option<&str>
    ensures { option_map (λ text. text.now) result ≡ type_name (view json.now) }
{
    match json.as_str() {
        Some(name) => Some(name),
        None => text_at(json, "type"),
    }
}
