// What an item means, once its form is known.
ghost use Rattle.std.specs.Prelude.{◌≡◌, IfOk, codes, []};
ghost use Rattle.plain_types.specs.Answers.{Answers};
ghost use Rattle.dml_parser.specs.Items.{check_room, column_from, column_of, delete_of, equality_of, filter_of, insert_of, is_column, table_stands, where_of};

use crate::ScriptFault;
use crate::form::is_table_name;
use crate::raw::{ColumnName, Equality, Literal, PlacedName};
use crate::values::{limits_of_rows, literal_limit, value_of, values_of_rows};
use plain_types::{List, Text};
use row_values::{Column, Kind};
use sql_predicates::{Op, Operand, Pred};
use sql_statements::Statement;
use std::alloc::{AllocError, Global};

/// A script has at most so many statements.
const MOST_STATEMENTS: usize = 4096;

/// Whether one more statement has room beside so many.
#[tactic(auto, unfolding(crate::specs::Items::check_room))]
fn check_room(count: usize, line: u32) -> Result<(), ScriptFault>
    ensures { result ≡ check_room count line }
{
    if count < MOST_STATEMENTS {
        Ok(())
    } else {
        Err(ScriptFault::Limit(line))
    }
}

fn main_branch(alloc: Global) -> Result<Text, AllocError>
    ensures { IfOk result (λ name. name ≡ codes "main") }
{
    Text::copy_of(alloc, "main")
}

#[tactic(auto, unfolding(crate::specs::Items::insert_of))]
pub(crate) fn insert_of(
    alloc: Global,
    columns: &[Column],
    count: usize,
    line: u32,
    rows: &[List<Literal>],
) -> Result<Statement, ScriptFault>
    ensures { Answers ScriptFault.Memory (λ statement. statement) result (insert_of columns.now count line rows.now) }
{
    let values = values_of_rows(alloc, columns, rows)?;
    check_room(count, line)?;
    limits_of_rows(rows)?;
    let branch = main_branch(alloc)?;
    Ok(Statement::Insert {
        branch,
        rows: values,
    })
}

#[tactic(auto, unfolding(crate::specs::Items::table_stands))]
fn table_stands(table: &Option<PlacedName>) -> Result<(), ScriptFault>
    ensures { result ≡ table_stands table.now }
{
    match table {
        Some(name) => {
            if is_table_name(name.text.as_slice()) {
                Ok(())
            } else {
                Err(ScriptFault::Name(name.line))
            }
        }
        None => Ok(()),
    }
}

fn is_column(column: &Column, name: &[u8]) -> bool
    ensures { result ≡ is_column name.now column.now }
{
    column.name.as_bytes() == name
}

#[tactic(auto, unfolding(crate::specs::Items::column_from))]
fn find_column(columns: &[Column], name: &[u8]) -> Option<(usize, Kind)>
    ensures { result ≡ column_from name.now 0 columns.now }
{
    let mut at = 0;
    let mut rest = columns;
    while let [column, after @ ..] = rest {
        if is_column(column, name) {
            return Some((at, column.kind));
        }
        at += 1;
        rest = after;
    }
    None
}

/// Where the column of this name stands, and its kind.
#[tactic(auto, unfolding(crate::specs::Items::column_of))]
fn column_of(columns: &[Column], name: &ColumnName) -> Result<(usize, Kind), ScriptFault>
    ensures { result ≡ column_of columns.now name.now }
{
    table_stands(&name.table)?;
    match find_column(columns, name.column.text.as_slice()) {
        Some(column) => Ok(column),
        None => Err(ScriptFault::Name(name.column.line)),
    }
}

/// The predicate that the column equals the literal.
#[tactic(auto, unfolding(crate::specs::Items::equality_of))]
fn equality_of(alloc: Global, columns: &[Column], equality: &Equality) -> Result<Pred, ScriptFault>
    ensures { Answers ScriptFault.Memory (λ pred. pred) result (equality_of columns.now equality.now) }
{
    let (at, kind) = column_of(columns, &equality.column)?;
    let value = value_of(alloc, kind, &equality.literal)?;
    Ok(Pred::Compare {
        op: Op::Equal,
        left: Operand::Column(at),
        right: Operand::Literal(value),
    })
}

#[tactic(auto, unfolding(crate::specs::Items::where_of))]
fn where_of(
    alloc: Global,
    columns: &[Column],
    count: usize,
    line: u32,
    equality: &Equality,
) -> Result<Pred, ScriptFault>
    ensures { Answers ScriptFault.Memory (λ pred. pred) result (where_of columns.now count line equality.now) }
{
    let filter = equality_of(alloc, columns, equality)?;
    check_room(count, line)?;
    literal_limit(&equality.literal)?;
    Ok(filter)
}

fn filter_of(
    alloc: Global,
    columns: &[Column],
    count: usize,
    line: u32,
    equality: &Option<Equality>,
) -> Result<Pred, ScriptFault>
    ensures { Answers ScriptFault.Memory (λ pred. pred) result (filter_of columns.now count line equality.now) }
{
    match equality {
        Some(equality) => where_of(alloc, columns, count, line, equality),
        None => {
            check_room(count, line)?;
            Ok(Pred::Const(true))
        }
    }
}

#[tactic(auto, unfolding(crate::specs::Items::delete_of))]
pub(crate) fn delete_of(
    alloc: Global,
    columns: &[Column],
    count: usize,
    line: u32,
    equality: &Option<Equality>,
) -> Result<Statement, ScriptFault>
    ensures { Answers ScriptFault.Memory (λ statement. statement) result (delete_of columns.now count line equality.now) }
{
    let filter = filter_of(alloc, columns, count, line, equality)?;
    let branch = main_branch(alloc)?;
    Ok(Statement::Delete { branch, filter })
}
