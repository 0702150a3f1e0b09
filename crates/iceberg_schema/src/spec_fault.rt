ghost use Rattle.std.specs.Prelude.{◌≡◌};
ghost use Rattle.iceberg_schema.specs.declared.spec_fault.SpecFault.TheVariants.{Memory};

use row_values::Text;
use std::alloc::{AllocError, AllocFailed};

/// Why a text is no transform.
#[derive(Clone, Copy, Debug, PartialEq, Eq)]
pub enum TransformFault {
    /// It is none of the spellings.
    Name,
    /// The number is not 1 to 2^31 - 1.
    Width,
    Memory,
}

/// Why a JSON value is no partition spec of a schema.
#[derive(Debug, Drop)]
pub enum SpecFault {
    /// A needed key is absent or of the wrong form.
    Missing(Text),
    /// The source id of a field that no column has.
    Source(i32),
    Transform(TransformFault),
    /// The source id of a field whose transform does not take the column's kind.
    Kind(i32),
    /// A field id that an earlier field has.
    Duplicate(i32),
    /// So many fields: more than 16.
    Fields(usize),
    Memory,
}

impl From<AllocError> for SpecFault {
    ghost from_gives = { λ _ e. e ≡ Memory };

    fn from(_: AllocError) -> SpecFault {
        SpecFault::Memory
    }
}

impl<T: Drop> From<AllocFailed<T>> for SpecFault {
    ghost from_gives = { λ _ e. e ≡ Memory };

    fn from(_: AllocFailed<T>) -> SpecFault {
        SpecFault::Memory
    }
}
