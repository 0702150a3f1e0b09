ghost use Rattle.std.specs.Prelude.{◌≡◌};
ghost use Rattle.sql_predicates.specs.Positions.{pred_is_within, expr_is_within, operand_is_within};

use crate::{Expr, Operand, Pred};

impl Operand {
    pub fn is_within(&self, width: usize) -> bool
        ensures { result ≡ operand_is_within width self.now }
    {
        match self {
            Operand::Column(at) => *at < width,
            Operand::Literal(_) => true,
        }
    }
}

impl Pred {
    /// Whether every position that it reads is in rows of this width.
    pub fn is_within(&self, width: usize) -> bool
        ensures { result ≡ pred_is_within width self.now }
    {
        match self {
            Pred::Const(_) => true,
            Pred::Compare { op: _, left, right } => left.is_within(width) && right.is_within(width),
            Pred::IsNull(at) | Pred::IsNotNull(at) => *at < width,
            Pred::Not(inner) => inner.get().is_within(width),
            Pred::And(left, right) | Pred::Or(left, right) => {
                left.get().is_within(width) && right.get().is_within(width)
            }
        }
    }
}

impl Expr {
    /// Whether every position that it reads is in rows of this width.
    pub fn is_within(&self, width: usize) -> bool
        ensures { result ≡ expr_is_within width self.now }
    {
        match self {
            Expr::Column(at) => *at < width,
            Expr::Literal(_) => true,
            Expr::Add(left, right) | Expr::Subtract(left, right) | Expr::Multiply(left, right) => {
                left.get().is_within(width) && right.get().is_within(width)
            }
            Expr::Widen(inner) => inner.get().is_within(width),
        }
    }
}
