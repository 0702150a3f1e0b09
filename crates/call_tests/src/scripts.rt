//! A script as it is read, and values of kinds that no table has yet.

use dml_parser::{Script, ScriptFault, read_script};
use plain_types::{List, Text};
use row_values::{Column, Kind, TableSchema, Value};
use sql_predicates::{Expr, Op, Operand, Pred};
use sql_statements::Statement;
use std::alloc::{AllocError, Global};

/// Names and kinds of the table's columns.
const COLUMNS: [(&str, Kind); 5] = [
    ("id", Kind::Long),
    ("n", Kind::Int),
    ("name", Kind::Text),
    ("ok", Kind::Bool),
    (
        "price",
        Kind::Decimal {
            precision: 9,
            scale: 2,
        },
    ),
];

fn schema(alloc: Global) -> Result<TableSchema, AllocError> {
    let mut columns = List::new(alloc);
    for (name, kind) in COLUMNS.iter() {
        columns.push(Column {
            id: 1,
            name: Text::copy_of(alloc, *name)?,
            kind: *kind,
            required: false,
        })?;
    }
    Ok(TableSchema { id: 0, columns })
}

type Case = (&'static [u8], ScriptFault);

const UNFIT: [Case; 8] = [
    (
        b"SESSION s;\nDELETE FROM t WHERE n =\n'x';",
        ScriptFault::Kind(3),
    ),
    (
        b"SESSION s;\nDELETE FROM t WHERE n = 2147483648;",
        ScriptFault::Kind(2),
    ),
    (
        b"SESSION s;\nDELETE FROM t WHERE n = -2147483649;",
        ScriptFault::Kind(2),
    ),
    (
        b"SESSION s;\nDELETE FROM t WHERE ok = 'TRUE';",
        ScriptFault::Kind(2),
    ),
    (
        b"SESSION s;\nDELETE FROM t WHERE price = TRUE;",
        ScriptFault::Kind(2),
    ),
    (
        b"SESSION s;\nDELETE FROM t WHERE price =\n1.50;",
        ScriptFault::Later(3),
    ),
    (
        b"SESSION s;\nINSERT INTO t VALUES (1, 2, 'x', TRUE, NULL), (1, 2,\n3, FALSE, NULL);",
        ScriptFault::Kind(3),
    ),
    (
        b"SESSION s;\nINSERT INTO t VALUES (1, 2, 'x',\n0, '1');",
        ScriptFault::Kind(3),
    ),
];

fn fault_of(alloc: Global, bytes: &[u8]) -> Result<Option<ScriptFault>, AllocError> {
    match read_script(alloc, bytes, &schema(alloc)?) {
        Ok(_) => Ok(None),
        Err(fault) => Ok(Some(fault)),
    }
}

#[test]
fn a_value_of_another_kind_has_its_line(rt: HostRuntime) -> Result<(), AllocError> {
    for (bytes, wanted) in UNFIT.iter() {
        let found = fault_of(rt.alloc(), *bytes)?;
        assert_eq!(rt; found, Some(*wanted), "{bytes:?}");
    }
    Ok(())
}

const STORY: &[u8] =
    b"-- people\nsession s_1;\ninsert into `t` values\n  (9223372036854775807, -2147483648, 'it''s', true, null), (-1, 007, '', FALSE, NULL);\nDELETE FROM t WHERE t.name = 'x';\ndelete from t;\n";

fn is_literal(expr: &Expr, wanted: &Value) -> bool {
    match expr {
        Expr::Literal(value) => *value == *wanted,
        _ => false,
    }
}

fn first_row(alloc: Global) -> Result<List<Value>, AllocError> {
    let mut row = List::new(alloc);
    row.push(Value::Long(9223372036854775807))?;
    row.push(Value::Int(-2147483648))?;
    row.push(Value::Text(Text::copy_of(alloc, "it's")?))?;
    row.push(Value::Bool(true))?;
    row.push(Value::Null)?;
    Ok(row)
}

fn are_literals(row: &[Expr], wanted: &[Value]) -> bool {
    row.len() == wanted.len()
        && row
            .iter()
            .zip(wanted.iter())
            .all(|(expr, value)| is_literal(expr, value))
}

fn inserts(statement: &Statement, first: &[Value]) -> bool {
    match statement {
        Statement::Insert { branch, rows } => match rows.as_slice() {
            [row, _] => branch.as_str() == "main" && are_literals(row.as_slice(), first),
            _ => false,
        },
        _ => false,
    }
}

fn is_name(operand: &Operand, name: &str) -> bool {
    match operand {
        Operand::Literal(Value::Text(text)) => text.as_str() == name,
        _ => false,
    }
}

fn deletes_name(statement: &Statement, name: &str) -> bool {
    match statement {
        Statement::Delete { filter, .. } => match filter {
            Pred::Compare { op, left, right } => {
                *op == Op::Equal && *left == Operand::Column(2) && is_name(right, name)
            }
            _ => false,
        },
        _ => false,
    }
}

fn deletes_all(statement: &Statement) -> bool {
    match statement {
        Statement::Delete { branch, filter } => {
            branch.as_str() == "main" && matches!(filter, Pred::Const(true))
        }
        _ => false,
    }
}

fn is_story(script: &Script, first: &[Value]) -> bool {
    match script.sessions.as_slice() {
        [session] => match session.statements.as_slice() {
            [insert, delete, all] => {
                session.name.as_str() == "s_1"
                    && inserts(insert, first)
                    && deletes_name(delete, "x")
                    && deletes_all(all)
            }
            _ => false,
        },
        _ => false,
    }
}

#[test]
fn a_script_is_its_sessions_and_statements(rt: HostRuntime) -> Result<(), AllocError> {
    let alloc = rt.alloc();
    let first = first_row(alloc)?;
    match read_script(alloc, STORY, &schema(alloc)?) {
        Ok(script) => assert!(rt; is_story(&script, first.as_slice()), "{script:?}"),
        Err(fault) => assert!(rt; false, "{fault:?}"),
    }
    let empty: [&[u8]; 3] = [b"", b" \n", b"-- a comment"];
    for bytes in empty {
        match read_script(alloc, bytes, &schema(alloc)?) {
            Ok(script) => assert!(rt; script.sessions.is_empty()),
            Err(fault) => assert!(rt; false, "{fault:?}"),
        }
    }
    Ok(())
}
