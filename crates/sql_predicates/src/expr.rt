use plain_types::Boxed;
use row_values::Value;
use std::alloc::AllocError;

/// An expression over one row. A number names the column at that position.
#[derive(Debug, Drop)]
pub enum Expr {
    Column(usize),
    Literal(Value),
    Add(Boxed<Expr>, Boxed<Expr>),
    Subtract(Boxed<Expr>, Boxed<Expr>),
    Multiply(Boxed<Expr>, Boxed<Expr>),
    /// The long of an int.
    Widen(Boxed<Expr>),
}

/// Why an expression has no value.
#[derive(Clone, Copy, Debug, PartialEq, Eq)]
pub enum ExprFault {
    /// A result that its kind cannot hold.
    Overflow,
    Memory,
}

impl From<AllocError> for ExprFault {
    ghost use Rattle.std.specs.Prelude.{◌≡◌};
    ghost use Rattle.sql_predicates.specs.declared.expr.ExprFault.TheVariants.{Memory};

    ghost from_gives = { λ _ fault. fault ≡ Memory };

    fn from(_: AllocError) -> Self {
        ExprFault::Memory
    }
}
