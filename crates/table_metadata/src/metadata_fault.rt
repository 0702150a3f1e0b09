ghost use Rattle.std.specs.Prelude.{◌≡◌};
ghost use Rattle.table_metadata.specs.declared.metadata_fault.MetadataFault.TheVariants.{Memory};

use iceberg_schema::{SchemaJsonFault, SpecFault};
use row_values::Text;
use std::alloc::{AllocError, AllocFailed};

/// Why bytes are no table metadata. The variants stand in the order in which faults are looked for.
#[derive(Debug, Drop)]
pub enum MetadataFault {
    /// No JSON object, or a number in it that is no whole number of 64 bits.
    Json,
    /// A needed key is absent.
    Missing(Text),
    /// A `format-version` other than 2.
    Version(i128),
    /// A key whose value is of the wrong form.
    Shape(Text),
    /// The first schema with a fault.
    Schema(SchemaJsonFault),
    /// The first partition spec with a fault.
    Spec(SpecFault),
    /// A table property whose value is none of its values.
    Property(Text),
    /// A ref that names no snapshot, or `main` where it is a tag or not the current snapshot.
    Ref(Text),
    Memory,
}

impl From<AllocError> for MetadataFault {
    ghost from_gives = { λ _ e. e ≡ Memory };

    fn from(_: AllocError) -> MetadataFault {
        MetadataFault::Memory
    }
}

impl<T: Drop> From<AllocFailed<T>> for MetadataFault {
    ghost from_gives = { λ _ e. e ≡ Memory };

    fn from(_: AllocFailed<T>) -> MetadataFault {
        MetadataFault::Memory
    }
}
