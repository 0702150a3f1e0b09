// The form of an item.
ghost use Rattle.std.specs.Prelude.{◌≡◌, []};
ghost use Rattle.plain_types.specs.Answers.{Answers};
ghost use Rattle.dml_parser.specs.Grammar.{
  beginning_of,
  column_at,
  delete_at,
  equality_at,
  filter_at,
  insert_at,
  is_table_name,
  item_at,
  more_at,
  qualified_at,
  row_at,
  rows_at,
  session_at,
  table_at,
  tuple_at,
};

use crate::ScriptFault;
use crate::front::{Later, Wanted, line_of, refuse_later, skipped, wanted_at};
use crate::literal::{expression_at, literal_at, name_at, session_name_at};
use crate::raw::{ColumnName, Equality, Item, Literal, PlacedName};
use plain_types::List;
use row_values::Column;
use script_words::{Keyword, Placed, Word};
use std::alloc::Global;

pub(crate) fn is_table_name(name: &[u8]) -> bool
    ensures { result ≡ is_table_name name.now }
{
    name == b"t".as_slice()
}

/// What follows the table's name, which has to be in front. A branch is not read yet.
#[tactic(auto, unfolding(crate::specs::Grammar::table_at))]
fn table_at(alloc: Global, words: &[Placed]) -> Result<&[Placed], ScriptFault>
    ensures { Answers ScriptFault.Memory (λ rest. rest.now) result (table_at words.now) }
{
    let (name, rest) = name_at(alloc, words)?;
    if !is_table_name(name.text.as_slice()) {
        return Err(ScriptFault::Form(name.line));
    }
    refuse_later(Later::Branch, rest)?;
    Ok(rest)
}

/// Whether one more expression follows in a tuple, and what follows the comma or the parenthesis.
#[tactic(auto, unfolding(crate::specs::Grammar::more_at))]
fn more_at(words: &[Placed]) -> Result<(bool, &[Placed]), ScriptFault>
    ensures { Answers ScriptFault.Memory (λ x. (x.0, x.1.now)) result (more_at words.now) }
{
    refuse_later(Later::Arithmetic, words)?;
    let (goes_on, rest) = skipped(Wanted::Comma, words);
    if goes_on {
        return Ok((true, rest));
    }
    let rest = wanted_at(Wanted::Close, words)?;
    Ok((false, rest))
}

/// One expression for each column, and what follows the tuple.
#[tactic(auto, unfolding(crate::specs::Grammar::row_at))]
fn row_at<'w>(
    alloc: Global,
    columns: &[Column],
    words: &'w [Placed],
) -> Result<(List<Literal>, &'w [Placed]), ScriptFault>
    ensures { Answers ScriptFault.Memory (λ x. (x.0, x.1.now)) result (row_at columns.now [] words.now) }
{
    let mut row = List::new(alloc);
    let mut left = columns;
    let mut rest = words;
    while let [_, fewer @ ..] = left {
        let (literal, next) = expression_at(alloc, rest)?;
        row.push(literal)?;
        let (goes_on, after) = more_at(next)?;
        if !goes_on {
            return if fewer.is_empty() {
                Ok((row, after))
            } else {
                Err(ScriptFault::Form(line_of(next)))
            };
        }
        left = fewer;
        rest = after;
    }
    Err(ScriptFault::Form(line_of(rest)))
}

#[tactic(auto, unfolding(crate::specs::Grammar::tuple_at))]
fn tuple_at<'w>(
    alloc: Global,
    columns: &[Column],
    words: &'w [Placed],
) -> Result<(List<Literal>, &'w [Placed]), ScriptFault>
    ensures { Answers ScriptFault.Memory (λ x. (x.0, x.1.now)) result (tuple_at columns.now words.now) }
{
    let words = wanted_at(Wanted::Open, words)?;
    row_at(alloc, columns, words)
}

/// The tuples in front, and what follows them.
#[tactic(auto, unfolding(crate::specs::Grammar::rows_at))]
fn rows_at<'w>(
    alloc: Global,
    columns: &[Column],
    words: &'w [Placed],
) -> Result<(List<List<Literal>>, &'w [Placed]), ScriptFault>
    ensures { Answers ScriptFault.Memory (λ x. (x.0, x.1.now)) result (rows_at columns.now words.now [] words.now) }
{
    let mut rows = List::new(alloc);
    let mut rest = words;
    let mut bound = words;
    while let [_, fewer @ ..] = bound {
        let (row, next) = tuple_at(alloc, columns, rest)?;
        rows.push(row)?;
        let (goes_on, after) = skipped(Wanted::Comma, next);
        if !goes_on {
            return Ok((rows, next));
        }
        rest = after;
        bound = fewer;
    }
    Err(ScriptFault::Form(line_of(rest)))
}

#[tactic(auto, unfolding(crate::specs::Grammar::insert_at))]
fn insert_at<'w>(
    alloc: Global,
    columns: &[Column],
    words: &'w [Placed],
) -> Result<(Item, &'w [Placed]), ScriptFault>
    ensures { Answers ScriptFault.Memory (λ x. (x.0, x.1.now)) result (insert_at columns.now words.now) }
{
    let words = wanted_at(Wanted::Into, words)?;
    let words = table_at(alloc, words)?;
    refuse_later(Later::Group, words)?;
    let words = wanted_at(Wanted::Values, words)?;
    let (rows, words) = rows_at(alloc, columns, words)?;
    let rest = wanted_at(Wanted::Semicolon, words)?;
    Ok((Item::Insert(rows), rest))
}

/// The column whose name, or the name of whose table, has been read.
#[tactic(auto, unfolding(crate::specs::Grammar::qualified_at))]
fn qualified_at(
    alloc: Global,
    name: PlacedName,
    words: &[Placed],
) -> Result<(ColumnName, &[Placed]), ScriptFault>
    ensures { Answers ScriptFault.Memory (λ x. (x.0, x.1.now)) result (qualified_at name words.now) }
{
    let (goes_on, rest) = skipped(Wanted::Point, words);
    if !goes_on {
        let column = ColumnName {
            table: None,
            column: name,
        };
        return Ok((column, words));
    }
    let (column, rest) = name_at(alloc, rest)?;
    let column = ColumnName {
        table: Some(name),
        column,
    };
    Ok((column, rest))
}

#[tactic(auto, unfolding(crate::specs::Grammar::column_at))]
fn column_at(alloc: Global, words: &[Placed]) -> Result<(ColumnName, &[Placed]), ScriptFault>
    ensures { Answers ScriptFault.Memory (λ x. (x.0, x.1.now)) result (column_at words.now) }
{
    refuse_later(Later::Predicate, words)?;
    let (name, rest) = name_at(alloc, words)?;
    qualified_at(alloc, name, rest)
}

#[tactic(auto, unfolding(crate::specs::Grammar::equality_at))]
fn equality_at(alloc: Global, words: &[Placed]) -> Result<(Equality, &[Placed]), ScriptFault>
    ensures { Answers ScriptFault.Memory (λ x. (x.0, x.1.now)) result (equality_at words.now) }
{
    let (column, words) = column_at(alloc, words)?;
    refuse_later(Later::Comparison, words)?;
    let words = wanted_at(Wanted::Equal, words)?;
    let (literal, rest) = literal_at(alloc, words)?;
    refuse_later(Later::Junction, rest)?;
    Ok((Equality { column, literal }, rest))
}

/// The predicate after WHERE, where that is in front, and what follows it.
#[tactic(auto, unfolding(crate::specs::Grammar::filter_at))]
fn filter_at(alloc: Global, words: &[Placed]) -> Result<(Option<Equality>, &[Placed]), ScriptFault>
    ensures { Answers ScriptFault.Memory (λ x. (x.0, x.1.now)) result (filter_at words.now) }
{
    let (goes_on, rest) = skipped(Wanted::Where, words);
    if !goes_on {
        return Ok((None, words));
    }
    let (equality, rest) = equality_at(alloc, rest)?;
    Ok((Some(equality), rest))
}

#[tactic(auto, unfolding(crate::specs::Grammar::delete_at))]
fn delete_at(alloc: Global, words: &[Placed]) -> Result<(Item, &[Placed]), ScriptFault>
    ensures { Answers ScriptFault.Memory (λ x. (x.0, x.1.now)) result (delete_at words.now) }
{
    let words = wanted_at(Wanted::From, words)?;
    let words = table_at(alloc, words)?;
    let (filter, words) = filter_at(alloc, words)?;
    let rest = wanted_at(Wanted::Semicolon, words)?;
    Ok((Item::Delete(filter), rest))
}

#[tactic(auto, unfolding(crate::specs::Grammar::session_at))]
fn session_at(alloc: Global, words: &[Placed]) -> Result<(Item, &[Placed]), ScriptFault>
    ensures { Answers ScriptFault.Memory (λ x. (x.0, x.1.now)) result (session_at words.now) }
{
    let (name, words) = session_name_at(alloc, words)?;
    let rest = wanted_at(Wanted::Semicolon, words)?;
    Ok((Item::Session(name.text), rest))
}

/// Whether the items that follow stand in a session.
#[derive(Clone, Copy, Debug, PartialEq, Eq)]
pub(crate) enum Within {
    Script,
    Session,
}

/// What a word begins.
#[derive(Clone, Copy, Debug, PartialEq, Eq)]
pub(crate) enum Beginning {
    Session,
    Insert,
    Delete,
    /// An item that is not read yet.
    Later,
    Nothing,
}

fn begins_in_script(key: Keyword) -> Beginning
    ensures { result ≡ beginning_of Within.Script (Word.Key key) }
{
    match key {
        Keyword::Session => Beginning::Session,
        Keyword::Source | Keyword::Schedule => Beginning::Later,
        _ => Beginning::Nothing,
    }
}

fn begins_in_session(key: Keyword) -> Beginning
    ensures { result ≡ beginning_of Within.Session (Word.Key key) }
{
    match key {
        Keyword::Insert => Beginning::Insert,
        Keyword::Delete => Beginning::Delete,
        Keyword::Session
        | Keyword::Source
        | Keyword::Schedule
        | Keyword::Update
        | Keyword::Merge
        | Keyword::Alter
        | Keyword::Select => Beginning::Later,
        _ => Beginning::Nothing,
    }
}

fn beginning_of(within: Within, word: &Word) -> Beginning
    ensures { result ≡ beginning_of within word.now }
{
    match word {
        Word::Key(key) => match within {
            Within::Script => begins_in_script(*key),
            Within::Session => begins_in_session(*key),
        },
        _ => Beginning::Nothing,
    }
}

/// The item in front, and what follows its semicolon.
#[tactic(auto, unfolding(crate::specs::Grammar::item_at))]
pub(crate) fn item_at<'w>(
    alloc: Global,
    columns: &[Column],
    within: Within,
    words: &'w [Placed],
) -> Result<(Item, &'w [Placed]), ScriptFault>
    ensures { Answers ScriptFault.Memory (λ x. (x.0, x.1.now)) result (item_at columns.now within words.now) }
{
    match words {
        [first, rest @ ..] => match beginning_of(within, &first.word) {
            Beginning::Session => session_at(alloc, rest),
            Beginning::Insert => insert_at(alloc, columns, rest),
            Beginning::Delete => delete_at(alloc, rest),
            Beginning::Later => Err(ScriptFault::Later(first.line)),
            Beginning::Nothing => Err(ScriptFault::Form(first.line)),
        },
        [] => Err(ScriptFault::Form(1)),
    }
}
