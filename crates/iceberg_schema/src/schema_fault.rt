ghost use Rattle.iceberg_schema.specs.declared.schema_fault.SchemaJsonFault.TheVariants.{Memory};
ghost use Rattle.std.specs.Prelude.{◌≡◌};

use row_values::Text;
use std::alloc::{AllocError, AllocFailed};

/// Why a JSON value is no schema.
#[derive(Debug, Drop)]
pub enum SchemaJsonFault {
    /// A needed key is absent or of the wrong form.
    Missing(Text),
    /// A type's text that names no kind.
    Kind(Text),
    /// An id that stands twice or is reserved.
    Duplicate(i32),
    /// So many columns: none, or more than 256.
    Columns(usize),
    /// A name that stands twice or has more than 4,096 bytes.
    Name(Text),
    Memory,
}

impl From<AllocError> for SchemaJsonFault {
    ghost from_gives = { λ _ e. e ≡ Memory };

    fn from(_: AllocError) -> SchemaJsonFault {
        SchemaJsonFault::Memory
    }
}

impl<T: Drop> From<AllocFailed<T>> for SchemaJsonFault {
    ghost from_gives = { λ _ e. e ≡ Memory };

    fn from(_: AllocFailed<T>) -> SchemaJsonFault {
        SchemaJsonFault::Memory
    }
}
