ghost use Rattle.std.specs.Prelude.{◌≡◌, IfOk};

use plain_types::Boxed;
use row_values::Value;
use std::alloc::{AllocError, Global};

/// How two values are compared.
#[derive(Clone, Copy, Debug, PartialEq, Eq)]
pub enum Op {
    Equal,
    NotEqual,
    Less,
    LessOrEqual,
    Greater,
    GreaterOrEqual,
}

/// A side of a comparison: the column at a position of the row, or a value.
#[derive(Debug, PartialEq, Drop)]
pub enum Operand {
    Column(usize),
    Literal(Value),
}

impl Operand {
    pub fn copy(&self, alloc: Global) -> Result<Operand, AllocError>
        ensures { IfOk result (λ o. o ≡ self.now) }
    {
        match self {
            Operand::Column(at) => Ok(Operand::Column(*at)),
            Operand::Literal(value) => Ok(Operand::Literal(value.copy(alloc)?)),
        }
    }
}

/// A predicate over one row. A number names the column at that position.
#[derive(Debug, Drop)]
pub enum Pred {
    Const(bool),
    Compare {
        op: Op,
        left: Operand,
        right: Operand,
    },
    IsNull(usize),
    IsNotNull(usize),
    Not(Boxed<Pred>),
    And(Boxed<Pred>, Boxed<Pred>),
    Or(Boxed<Pred>, Boxed<Pred>),
}

impl Pred {
    pub fn copy(&self, alloc: Global) -> Result<Pred, AllocError>
        ensures { IfOk result (λ p. p ≡ self.now) }
    {
        match self {
            Pred::Const(holds) => Ok(Pred::Const(*holds)),
            Pred::Compare { op, left, right } => Ok(Pred::Compare {
                op: *op,
                left: left.copy(alloc)?,
                right: right.copy(alloc)?,
            }),
            Pred::IsNull(at) => Ok(Pred::IsNull(*at)),
            Pred::IsNotNull(at) => Ok(Pred::IsNotNull(*at)),
            Pred::Not(inner) => Ok(Pred::Not(Boxed::new(alloc, inner.get().copy(alloc)?)?)),
            Pred::And(left, right) => {
                let left = Boxed::new(alloc, left.get().copy(alloc)?)?;
                let right = Boxed::new(alloc, right.get().copy(alloc)?)?;
                Ok(Pred::And(left, right))
            }
            Pred::Or(left, right) => {
                let left = Boxed::new(alloc, left.get().copy(alloc)?)?;
                let right = Boxed::new(alloc, right.get().copy(alloc)?)?;
                Ok(Pred::Or(left, right))
            }
        }
    }
}
