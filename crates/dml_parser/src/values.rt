// The values that literals are in the columns' kinds.
ghost use Rattle.std.specs.Prelude.{◌≡◌, []};
ghost use Rattle.plain_types.specs.Answers.{Answers};
ghost use Rattle.dml_parser.specs.Values.{
  bool_value,
  digits_of,
  int_value,
  limits_of_row,
  limits_of_rows,
  literal_limit,
  long_value,
  number_value,
  values_of_row,
  values_of_rows,
  text_of,
  text_value,
  value_of,
  whole_of,
};

use crate::ScriptFault;
use crate::raw::{Literal, Spelling};
use plain_types::digits::number_at;
use plain_types::{List, Text};
use row_values::{Column, Kind, Value};
use sql_predicates::Expr;
use std::alloc::Global;
use std::str;

/// A text is at most so many bytes long.
const LONGEST_TEXT: usize = 131072;

/// The number that the digits are; one above `u64::MAX` stands at it.
#[tactic(auto, unfolding(crate::specs::Values::digits_of))]
fn digits_of(bytes: &[u8]) -> Option<u64>
    ensures { result ≡ digits_of bytes.now }
{
    let (number, rest) = number_at(bytes)?;
    if rest.is_empty() { Some(number) } else { None }
}

/// The whole number that is spelled so.
#[tactic(auto, unfolding(crate::specs::Values::whole_of))]
fn whole_of(bytes: &[u8]) -> Option<i128>
    ensures { result ≡ whole_of bytes.now }
{
    match bytes {
        [b'-', digits @ ..] => Some(-i128::from(digits_of(digits)?)),
        _ => Some(i128::from(digits_of(bytes)?)),
    }
}

fn int_value(number: i128, line: u32) -> Result<Value, ScriptFault>
    ensures { result ≡ int_value number line }
{
    match i32::try_from(number) {
        Ok(int) => Ok(Value::Int(int)),
        Err(_) => Err(ScriptFault::Kind(line)),
    }
}

fn long_value(number: i128, line: u32) -> Result<Value, ScriptFault>
    ensures { result ≡ long_value number line }
{
    match i64::try_from(number) {
        Ok(long) => Ok(Value::Long(long)),
        Err(_) => Err(ScriptFault::Kind(line)),
    }
}

/// A number in a decimal column is not read yet.
#[tactic(auto, unfolding(crate::specs::Values::number_value))]
fn number_value(kind: Kind, number: &[u8], line: u32) -> Result<Value, ScriptFault>
    ensures { result ≡ number_value kind number.now line }
{
    if let Kind::Decimal { .. } = kind {
        return Err(ScriptFault::Later(line));
    }
    let Some(whole) = whole_of(number) else {
        return Err(ScriptFault::Kind(line));
    };
    match kind {
        Kind::Int => int_value(whole, line),
        Kind::Long => long_value(whole, line),
        _ => Err(ScriptFault::Kind(line)),
    }
}

fn bool_value(kind: Kind, holds: bool, line: u32) -> Result<Value, ScriptFault>
    ensures { result ≡ bool_value kind holds line }
{
    match kind {
        Kind::Bool => Ok(Value::Bool(holds)),
        _ => Err(ScriptFault::Kind(line)),
    }
}

/// The text that the bytes are, as every part of a script is one.
pub(crate) fn text_of(alloc: Global, bytes: &[u8]) -> Result<Text, ScriptFault>
    ensures { Answers ScriptFault.Memory (λ text. text) result (text_of bytes.now) }
{
    match str::from_utf8(bytes) {
        Ok(text) => Ok(Text::copy_of(alloc, text)?),
        Err(_) => Err(ScriptFault::Text),
    }
}

#[tactic(auto, unfolding(crate::specs::Values::text_value))]
fn text_value(alloc: Global, kind: Kind, bytes: &[u8], line: u32) -> Result<Value, ScriptFault>
    ensures { Answers ScriptFault.Memory (λ value. value) result (text_value kind bytes.now line) }
{
    match kind {
        Kind::Text => Ok(Value::Text(text_of(alloc, bytes)?)),
        _ => Err(ScriptFault::Kind(line)),
    }
}

/// The value that the literal is in the kind.
#[tactic(auto, unfolding(crate::specs::Values::value_of))]
pub(crate) fn value_of(alloc: Global, kind: Kind, literal: &Literal) -> Result<Value, ScriptFault>
    ensures { Answers ScriptFault.Memory (λ value. value) result (value_of kind literal.now) }
{
    let line = literal.line;
    match &literal.spelling {
        Spelling::Null => Ok(Value::Null),
        Spelling::Bool(holds) => bool_value(kind, *holds, line),
        Spelling::Number(number) => number_value(kind, number.as_slice(), line),
        Spelling::Text(text) => text_value(alloc, kind, text.as_slice(), line),
    }
}

/// The values of a tuple.
#[tactic(auto, unfolding(crate::specs::Values::values_of_row))]
fn values_of_row(
    alloc: Global,
    columns: &[Column],
    row: &[Literal],
) -> Result<List<Expr>, ScriptFault>
    ensures { Answers ScriptFault.Memory (λ values. values) result (values_of_row columns.now [] row.now) }
{
    let mut values = List::new(alloc);
    let mut left = columns;
    let mut rest = row;
    while let [literal, after @ ..] = rest {
        match left {
            [column, fewer @ ..] => {
                let value = value_of(alloc, column.kind, literal)?;
                values.push(Expr::Literal(value))?;
                left = fewer;
            }
            [] => return Err(ScriptFault::Form(literal.line)),
        }
        rest = after;
    }
    Ok(values)
}

#[tactic(auto, unfolding(crate::specs::Values::values_of_rows))]
pub(crate) fn values_of_rows(
    alloc: Global,
    columns: &[Column],
    rows: &[List<Literal>],
) -> Result<List<List<Expr>>, ScriptFault>
    ensures { Answers ScriptFault.Memory (λ values. values) result (values_of_rows columns.now [] rows.now) }
{
    let mut values = List::new(alloc);
    let mut rest = rows;
    while let [row, after @ ..] = rest {
        values.push(values_of_row(alloc, columns, row.as_slice())?)?;
        rest = after;
    }
    Ok(values)
}

/// Texts that are too long.
#[tactic(auto, unfolding(crate::specs::Values::literal_limit))]
pub(crate) fn literal_limit(literal: &Literal) -> Result<(), ScriptFault>
    ensures { result ≡ literal_limit literal.now }
{
    match &literal.spelling {
        Spelling::Text(text) => {
            if text.len() > LONGEST_TEXT {
                Err(ScriptFault::Limit(literal.line))
            } else {
                Ok(())
            }
        }
        Spelling::Null | Spelling::Bool(_) | Spelling::Number(_) => Ok(()),
    }
}

#[tactic(auto, unfolding(crate::specs::Values::limits_of_row))]
fn limits_of_row(row: &[Literal]) -> Result<(), ScriptFault>
    ensures { result ≡ limits_of_row row.now }
{
    let mut rest = row;
    while let [literal, after @ ..] = rest {
        literal_limit(literal)?;
        rest = after;
    }
    Ok(())
}

#[tactic(auto, unfolding(crate::specs::Values::limits_of_rows))]
pub(crate) fn limits_of_rows(rows: &[List<Literal>]) -> Result<(), ScriptFault>
    ensures { result ≡ limits_of_rows rows.now }
{
    let mut rest = rows;
    while let [row, after @ ..] = rest {
        limits_of_row(row.as_slice())?;
        rest = after;
    }
    Ok(())
}
