ghost use Rattle.avro_rows.specs.declared.row_fault.RowFault.TheVariants.{Memory};
ghost use Rattle.std.specs.Prelude.{◌≡◌};

use std::alloc::{AllocError, AllocFailed};

/// Why a container holds no rows of the columns. A column is named by its field id; rows count from 0. The first two
/// come before the others.
#[derive(Debug, PartialEq, Drop)]
pub enum RowFault {
    /// The file lacks a required column.
    NoColumn(i32),
    /// The column's field has an Avro type that doesn't carry the column's kind.
    Kind(i32),
    /// The column's value in this row is no value of the column's kind.
    Range(i32, u64),
    /// A required column is NULL in this row.
    Null(i32, u64),
    Memory,
}

impl From<AllocError> for RowFault {
    ghost from_gives = { λ _ e. e ≡ Memory };

    fn from(_: AllocError) -> RowFault {
        RowFault::Memory
    }
}

impl<T: Drop> From<AllocFailed<T>> for RowFault {
    ghost from_gives = { λ _ e. e ≡ Memory };

    fn from(_: AllocFailed<T>) -> RowFault {
        RowFault::Memory
    }
}
