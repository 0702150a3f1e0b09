//! Truth in three values, and the ends of kinds.

use sql_predicates::{
    Boxed, Expr, ExprFault, List, Op, Operand, Pred, Row, Truth, Value, eval, eval_expr, normal,
};
use std::alloc::{AllocError, Global};

const OPS: [Op; 6] = [
    Op::Equal,
    Op::NotEqual,
    Op::Less,
    Op::LessOrEqual,
    Op::Greater,
    Op::GreaterOrEqual,
];

fn row_of(alloc: Global, values: &[Value]) -> Result<Row, AllocError> {
    row_values::copy_row(alloc, values)
}

fn compare(op: Op, at: usize, value: Value) -> Pred {
    Pred::Compare {
        op,
        left: Operand::Column(at),
        right: Operand::Literal(value),
    }
}

fn negate(alloc: Global, inner: Pred) -> Result<Pred, AllocError> {
    Ok(Pred::Not(Boxed::new(alloc, inner)?))
}

/// The truth of the predicate and of its normal form.
fn truths(alloc: Global, pred: &Pred, row: &Row) -> Result<[Option<Truth>; 2], AllocError> {
    let normal = normal(alloc, pred)?;
    Ok([truth(pred, row), truth(&normal, row)])
}

fn truth(pred: &Pred, row: &Row) -> Option<Truth> {
    if pred.is_within(row.len()) {
        Some(eval(pred, row))
    } else {
        None
    }
}

#[test]
fn a_comparison_with_null_is_unknown_and_so_is_its_negation(
    rt: HostRuntime,
) -> Result<(), AllocError> {
    let alloc = rt.alloc();
    let row = row_of(alloc, &[Value::Int(2), Value::Null])?;
    for op in OPS.iter() {
        let pred = compare(*op, 1, Value::Int(10));
        assert_eq!(rt;
            truths(alloc, &pred, &row)?,
            [Some(Truth::Unknown), Some(Truth::Unknown)]
        );
        let negated = negate(alloc, pred)?;
        assert_eq!(rt;
            truths(alloc, &negated, &row)?,
            [Some(Truth::Unknown), Some(Truth::Unknown)]
        );
        let literal = compare(*op, 0, Value::Null);
        assert_eq!(rt;
            truths(alloc, &literal, &row)?,
            [Some(Truth::Unknown), Some(Truth::Unknown)]
        );
    }
    Ok(())
}

/// Two truths, and what AND and OR give of them.
type Tabled = (Truth, Truth, Truth, Truth);

const TABLE: [Tabled; 9] = [
    (Truth::True, Truth::True, Truth::True, Truth::True),
    (Truth::True, Truth::False, Truth::False, Truth::True),
    (Truth::True, Truth::Unknown, Truth::Unknown, Truth::True),
    (Truth::False, Truth::True, Truth::False, Truth::True),
    (Truth::False, Truth::False, Truth::False, Truth::False),
    (Truth::False, Truth::Unknown, Truth::False, Truth::Unknown),
    (Truth::Unknown, Truth::True, Truth::Unknown, Truth::True),
    (Truth::Unknown, Truth::False, Truth::False, Truth::Unknown),
    (
        Truth::Unknown,
        Truth::Unknown,
        Truth::Unknown,
        Truth::Unknown,
    ),
];

fn is_as_tabled(row: &Tabled) -> bool {
    row.0.and(row.1) == row.2 && row.0.or(row.1) == row.3
}

#[test]
fn and_or_and_not_are_as_in_the_tables_of_sql(rt: HostRuntime) {
    for row in TABLE.iter() {
        assert!(rt; is_as_tabled(row));
    }
    assert_eq!(rt; Truth::Unknown.not(), Truth::Unknown);
    assert_eq!(rt; Truth::True.not(), Truth::False);
    assert_eq!(rt; Truth::False.not(), Truth::True);
}

fn decimal(unscaled: i128) -> Value {
    Value::Decimal { unscaled, scale: 2 }
}

/// What the expression gives on the row of one value.
fn value(alloc: Global, expr: Expr, first: Value) -> Result<Value, ExprFault> {
    let mut row = List::new(alloc);
    row.push(first)?;
    if expr.is_within(row.len()) {
        eval_expr(alloc, &expr, &row)
    } else {
        Err(ExprFault::Memory)
    }
}

/// The column and a literal, added, subtracted or multiplied.
fn step(alloc: Global, sign: char, left: Value, right: Value) -> Result<Value, ExprFault> {
    let column = Boxed::new(alloc, Expr::Column(0))?;
    let literal = Boxed::new(alloc, Expr::Literal(right))?;
    match sign {
        '+' => value(alloc, Expr::Add(column, literal), left),
        '-' => value(alloc, Expr::Subtract(column, literal), left),
        _ => value(alloc, Expr::Multiply(column, literal), left),
    }
}

/// Whether the step overflows.
fn overflows(alloc: Global, sign: char, left: Value, right: Value) -> bool {
    matches!(step(alloc, sign, left, right), Err(ExprFault::Overflow))
}

#[test]
fn sums_and_products_past_the_ends_of_their_kinds(rt: HostRuntime) {
    let alloc = rt.alloc();
    assert!(rt; overflows(alloc, '+', Value::Int(i32::MAX), Value::Int(1)));
    assert!(rt; overflows(alloc, '*', Value::Int(32768), Value::Int(65536)));
    assert!(rt; overflows(alloc, '-', Value::Long(i64::MAX), Value::Long(-1)));
    assert!(rt; overflows(alloc, '*', Value::Long(2147483648), Value::Long(4294967296)));
    assert!(rt; overflows(alloc, '+', decimal(MOST), decimal(1)));
    assert!(rt; !overflows(alloc, '*', Value::Int(-32768), Value::Int(65536)));
}

const MOST: i128 = 99_999_999_999_999_999_999_999_999_999_999_999_999;

#[test]
fn null_with_anything_is_null_and_an_int_widens(rt: HostRuntime) -> Result<(), AllocError> {
    let alloc = rt.alloc();
    let given = step(alloc, '+', Value::Int(i32::MAX), Value::Null);
    assert_eq!(rt; given, Ok(Value::Null));
    let widened = Boxed::new(alloc, Expr::Widen(Boxed::new(alloc, Expr::Column(0))?))?;
    let one = Boxed::new(alloc, Expr::Literal(Value::Long(1)))?;
    let given = value(alloc, Expr::Add(widened, one), Value::Int(i32::MAX));
    assert_eq!(rt; given, Ok(Value::Long(2147483648)));
    Ok(())
}
