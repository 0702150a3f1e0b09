ghost use Rattle.manifest_files.specs.declared.manifest_fault.ManifestFault.TheVariants.{Memory};
ghost use Rattle.std.specs.Prelude.{◌≡◌};

use avro_container::ContainerFault;
use row_values::Text;
use std::alloc::{AllocError, AllocFailed};

/// Why bytes are no manifest or no list. A field is named by its id.
#[derive(Debug, Drop)]
pub enum ManifestFault {
    /// The bytes are no container.
    Container(ContainerFault),
    /// The file lacks a field that each has.
    Field(i32),
    /// The field's type is another, a value that is needed is null, or the value is none that the field may have.
    Kind(i32),
    /// An entry has this status, which is none.
    Status(i32),
    /// The live file with this path isn't in Avro.
    Format(Text),
    /// The field says that the file is encrypted.
    Key(i32),
    /// The map has a key twice.
    Twice(i32),
    /// The table has no spec with this id. Nothing that reads a single file answers it.
    Spec(i32),
    Memory,
}

impl From<AllocError> for ManifestFault {
    ghost from_gives = { λ _ e. e ≡ Memory };

    fn from(_: AllocError) -> ManifestFault {
        ManifestFault::Memory
    }
}

impl<T: Drop> From<AllocFailed<T>> for ManifestFault {
    ghost from_gives = { λ _ e. e ≡ Memory };

    fn from(_: AllocFailed<T>) -> ManifestFault {
        ManifestFault::Memory
    }
}
