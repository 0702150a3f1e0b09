ghost use Rattle.std.specs.Prelude.{◌≡◌};
ghost use Rattle.avro_binary.specs.declared.schema_fault.SchemaFault.TheVariants.{Memory};

use plain_types::Bytes as Octets;
use std::alloc::{AllocError, AllocFailed};

/// Why a text is no schema: the first fault of its tree from the top, each node before those inside it.
#[derive(Debug, Drop)]
pub enum SchemaFault {
    /// The text isn't UTF-8, or no JSON.
    Json,
    /// No type has this name, or it isn't finished where it is named.
    TypeName(Octets),
    /// A key that the node needs is absent or of the wrong form, or a name is defined a second time.
    Shape,
    /// The node is nested deeper than 32, or is past the 100,000th, references written out.
    Depth,
    Memory,
}

impl From<AllocError> for SchemaFault {
    ghost from_gives = { λ _ e. e ≡ Memory };

    fn from(_e: AllocError) -> SchemaFault {
        SchemaFault::Memory
    }
}

impl<T: Drop> From<AllocFailed<T>> for SchemaFault {
    ghost from_gives = { λ _ e. e ≡ Memory };

    fn from(_e: AllocFailed<T>) -> SchemaFault {
        SchemaFault::Memory
    }
}
