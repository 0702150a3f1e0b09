//! Cases of UPDATE and MERGE.

use row_values::Kind;
use sql_predicates::{Op, Operand};
use sql_statements::{
    Action, Clause, Column, Expr, List, Merge, PlainFault, Pred, Row, Set, Source, SqlRefusal,
    Statement, TableSchema, Text, Value, When, are_wide, plain, sources_are_wide,
};
use std::alloc::{AllocError, Global};

/// A row of two numbers, of which a missing one is NULL.
type Pair = [Option<i32>; 2];

fn value(number: Option<i32>) -> Value {
    match number {
        Some(n) => Value::Int(n),
        None => Value::Null,
    }
}

fn rows(alloc: Global, pairs: &[Pair]) -> Result<List<Row>, AllocError> {
    let mut rows = List::new(alloc);
    for pair in pairs {
        let mut row = List::new(alloc);
        row.push(value(pair[0]))?;
        row.push(value(pair[1]))?;
        rows.push(row)?;
    }
    Ok(rows)
}

/// `key INT NOT NULL, n INT`.
fn columns(alloc: Global) -> Result<List<Column>, AllocError> {
    let key = Column {
        id: 1,
        name: Text::copy_of(alloc, "key")?,
        kind: Kind::Int,
        required: true,
    };
    let n = Column {
        id: 2,
        name: Text::copy_of(alloc, "n")?,
        kind: Kind::Int,
        required: false,
    };
    two(alloc, key, n)
}

fn one<T: Drop>(alloc: Global, item: T) -> Result<List<T>, AllocError> {
    let mut items = List::new(alloc);
    items.push(item)?;
    Ok(items)
}

fn two<T: Drop>(alloc: Global, first: T, second: T) -> Result<List<T>, AllocError> {
    let mut items = one(alloc, first)?;
    items.push(second)?;
    Ok(items)
}

/// The statement on a table and with a source, both of pairs.
fn run(
    alloc: Global,
    statement: &Statement,
    table: &[Pair],
    source: &[Pair],
) -> Result<List<Row>, PlainFault> {
    let schema = TableSchema {
        id: 0,
        columns: columns(alloc)?,
    };
    let source = Source {
        columns: columns(alloc)?,
        rows: rows(alloc, source)?,
    };
    let sources = one(alloc, source)?;
    let table = rows(alloc, table)?;
    run_where_it_fits(
        alloc,
        &schema,
        statement,
        table.as_slice(),
        sources.as_slice(),
    )
}

fn run_where_it_fits(
    alloc: Global,
    schema: &TableSchema,
    statement: &Statement,
    table: &[Row],
    sources: &[Source],
) -> Result<List<Row>, PlainFault> {
    let columns = schema.columns.as_slice();
    if statement.is_within(columns, sources)
        && are_wide(columns.len(), table)
        && sources_are_wide(sources)
    {
        plain(alloc, schema, statement, table, sources)
    } else {
        Err(PlainFault::Memory)
    }
}

/// What a statement does to the table of a case.
#[derive(Drop)]
enum Outcome {
    Leaves(&'static [Pair]),
    Refuses(SqlRefusal),
}

#[derive(Drop)]
struct Case {
    label: &'static str,
    statement: Statement,
    source: &'static [Pair],
    wanted: Outcome,
}

fn are_pairs(alloc: Global, left: &List<Row>, wanted: &[Pair]) -> bool {
    match rows(alloc, wanted) {
        Ok(wanted) => *left == wanted,
        Err(_) => false,
    }
}

fn ends(alloc: Global, case: &Case) -> bool {
    let done = run(alloc, &case.statement, TABLE.as_slice(), case.source);
    match &case.wanted {
        Outcome::Leaves(wanted) => is_left(alloc, done, wanted),
        Outcome::Refuses(why) => is_refused(done, why),
    }
}

fn is_left(alloc: Global, done: Result<List<Row>, PlainFault>, wanted: &[Pair]) -> bool {
    match done {
        Ok(left) => are_pairs(alloc, &left, wanted),
        Err(_) => false,
    }
}

fn is_refused(done: Result<List<Row>, PlainFault>, why: &SqlRefusal) -> bool {
    match done {
        Err(PlainFault::Refused(found)) => found == *why,
        _ => false,
    }
}

fn is_number(op: Op, at: usize, number: i32) -> Pred {
    Pred::Compare {
        op,
        left: Operand::Column(at),
        right: Operand::Literal(Value::Int(number)),
    }
}

const TABLE: [Pair; 3] = [[Some(1), Some(10)], [Some(2), Some(20)], [Some(4), None]];

fn update(alloc: Global, sets: List<Set>, filter: Pred) -> Result<Statement, AllocError> {
    Ok(Statement::Update {
        branch: Text::copy_of(alloc, "main")?,
        sets,
        filter,
    })
}

/// SET key = n, n = key WHERE key < 4.
fn swap(alloc: Global) -> Result<Statement, AllocError> {
    let sets = two(
        alloc,
        Set {
            column: 0,
            expr: Expr::Column(1),
        },
        Set {
            column: 1,
            expr: Expr::Column(0),
        },
    )?;
    update(alloc, sets, is_number(Op::Less, 0, 4))
}

fn leaves(label: &'static str, statement: Statement, left: &'static [Pair]) -> Case {
    Case {
        label,
        statement,
        source: &[],
        wanted: Outcome::Leaves(left),
    }
}

fn refuses(label: &'static str, statement: Statement, why: SqlRefusal) -> Case {
    Case {
        label,
        statement,
        source: &[],
        wanted: Outcome::Refuses(why),
    }
}

/// ON key = source.key.
fn merge(alloc: Global, clauses: List<Clause>) -> Result<Statement, AllocError> {
    Ok(Statement::Merge(Merge {
        branch: Text::copy_of(alloc, "main")?,
        source: 0,
        on: Pred::Compare {
            op: Op::Equal,
            left: Operand::Column(0),
            right: Operand::Column(2),
        },
        clauses,
    }))
}

fn clause(when: When, condition: Pred, action: Action) -> Clause {
    Clause {
        when,
        condition,
        action,
    }
}

/// WHEN MATCHED THEN UPDATE SET n = source.n.
fn update_n(alloc: Global) -> Result<Clause, AllocError> {
    let sets = one(
        alloc,
        Set {
            column: 1,
            expr: Expr::Column(3),
        },
    )?;
    Ok(clause(When::Matched, Pred::Const(true), Action::Update(sets)))
}

/// WHEN NOT MATCHED AND the condition THEN INSERT (source.key, source.n).
fn insert_row(alloc: Global, condition: Pred) -> Result<Clause, AllocError> {
    let row = two(alloc, Expr::Column(2), Expr::Column(3))?;
    Ok(clause(When::NotMatched, condition, Action::Insert(row)))
}

fn upsert(alloc: Global) -> Result<Statement, AllocError> {
    let update = update_n(alloc)?;
    merge(
        alloc,
        two(alloc, update, insert_row(alloc, Pred::Const(true))?)?,
    )
}

fn merge_delete(alloc: Global, when: When, condition: bool) -> Result<Statement, AllocError> {
    merge(
        alloc,
        one(alloc, clause(when, Pred::Const(condition), Action::Delete))?,
    )
}

fn by(source: &'static [Pair], case: Case) -> Case {
    Case { source, ..case }
}

const ONE_MATCH: &[Pair] = &[[Some(2), Some(5)]];

const TWO_MATCHES: &[Pair] = &[[Some(2), Some(5)], [Some(2), Some(6)]];

fn cases(alloc: Global) -> Result<List<Case>, AllocError> {
    let mut cases = List::new(alloc);
    cases.push(leaves(
        "an update swaps two columns",
        swap(alloc)?,
        &[[Some(10), Some(1)], [Some(20), Some(2)], [Some(4), None]],
    ))?;
    let updated = leaves(
        "a row with one match is updated",
        upsert(alloc)?,
        &[[Some(1), Some(10)], [Some(2), Some(5)], [Some(4), None]],
    );
    cases.push(by(ONE_MATCH, updated))?;
    let twice = refuses(
        "an update of a row with two matches",
        upsert(alloc)?,
        SqlRefusal::Cardinality,
    );
    cases.push(by(TWO_MATCHES, twice))?;
    let lone = leaves(
        "a lone delete with two matches",
        merge_delete(alloc, When::Matched, true)?,
        &[[Some(1), Some(10)], [Some(4), None]],
    );
    cases.push(by(TWO_MATCHES, lone))?;
    let inserted = leaves(
        "a source row without a match is inserted",
        upsert(alloc)?,
        &[
            [Some(1), Some(10)],
            [Some(2), Some(20)],
            [Some(4), None],
            [Some(3), Some(30)],
        ],
    );
    cases.push(by(&[[Some(3), Some(30)]], inserted))?;
    let null = refuses(
        "a null key in the source matches nothing",
        upsert(alloc)?,
        SqlRefusal::Null(0),
    );
    cases.push(by(&[[None, Some(5)]], null))?;
    let gone = leaves(
        "target rows without a source row are deleted",
        merge_delete(alloc, When::NotMatchedBySource, true)?,
        &[[Some(2), Some(20)]],
    );
    cases.push(by(ONE_MATCH, gone))?;
    Ok(cases)
}

#[test]
fn each_statement_leaves_its_rows_or_is_refused(rt: HostRuntime) -> Result<(), AllocError> {
    let alloc = rt.alloc();
    let cases = cases(alloc)?;
    for case in cases.as_slice() {
        assert!(rt; ends(alloc, case), "{}", case.label);
    }
    Ok(())
}
