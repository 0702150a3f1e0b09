use plain_types::List;
use row_values::Value;
use std::alloc::AllocError;

/// A new row as computed, in which a value that overflowed is absent.
pub type NewRow = List<Option<Value>>;

/// What a statement does with a row.
#[derive(Debug, PartialEq, Drop)]
pub enum Effect {
    Keep,
    Remove,
    Replace(NewRow),
}

/// Why a statement is refused.
#[derive(Clone, Copy, Debug, PartialEq, Eq)]
pub enum SqlRefusal {
    /// Two source rows for one target row.
    Cardinality,
    /// A value that its kind or its column cannot hold.
    Overflow,
    /// NULL in the required column at this position.
    Null(usize),
}

/// Why a statement gives no rows.
#[derive(Clone, Copy, Debug, PartialEq, Eq)]
pub enum PlainFault {
    Refused(SqlRefusal),
    Memory,
}

impl From<AllocError> for PlainFault {
    ghost use Rattle.std.specs.Prelude.{◌≡◌};
    ghost use Rattle.sql_statements.specs.declared.effect.PlainFault.TheVariants.{Memory};

    ghost from_gives = { λ _ fault. fault ≡ Memory };

    fn from(_: AllocError) -> Self {
        PlainFault::Memory
    }
}
