ghost use Rattle.std.specs.Prelude.{◌≡◌};
ghost use Rattle.table_state.specs.Faults.{manifest_fault, container_fault, rows_fault};
ghost use Rattle.table_state.specs.declared.load_fault.LoadFault.TheVariants.{Memory};

use avro_container::ContainerFault;
use avro_rows::RowFault;
use manifest_files::ManifestFault;
use plain_types::Text;
use std::alloc::{AllocError, AllocFailed};
use store_core::StoreFault;
use table_metadata::MetadataFault;

/// Why the files of a table don't say what its branch holds. Paths are as the table's files name one another.
#[derive(Debug, Drop)]
pub enum LoadFault {
    /// A call of the store failed.
    Store,
    /// No file stands there.
    Missing(Text),
    /// The path does not lie in the table.
    Outside(Text),
    Metadata(MetadataFault),
    /// The manifest list or the manifest with this path.
    Manifest(Text, ManifestFault),
    /// The data file with this path is no container.
    Container(Text, ContainerFault),
    /// The data file with this path holds no rows of the table.
    Rows(Text, RowFault),
    Memory,
}

impl From<AllocError> for LoadFault {
    ghost from_gives = { λ _ e. e ≡ Memory };

    fn from(_: AllocError) -> LoadFault {
        LoadFault::Memory
    }
}

impl<T: Drop> From<AllocFailed<T>> for LoadFault {
    ghost from_gives = { λ _ e. e ≡ Memory };

    fn from(_: AllocFailed<T>) -> LoadFault {
        LoadFault::Memory
    }
}

impl From<StoreFault> for LoadFault {
    ghost use Rattle.table_state.specs.Faults.{store_fault};

    ghost from_gives = { λ f e. e ≡ store_fault f };

    fn from(fault: StoreFault) -> LoadFault {
        match fault {
            StoreFault::Failed => LoadFault::Store,
            StoreFault::Memory => LoadFault::Memory,
        }
    }
}

/// Why a list or a manifest with this path could not be read.
pub(crate) fn manifest_fault(path: Text, fault: ManifestFault) -> LoadFault
    ensures { result ≡ manifest_fault path fault }
{
    match fault {
        ManifestFault::Memory => LoadFault::Memory,
        other => LoadFault::Manifest(path, other),
    }
}

/// Why a data file with this path could not be read.
pub(crate) fn container_fault(path: Text, fault: ContainerFault) -> LoadFault
    ensures { result ≡ container_fault path fault }
{
    match fault {
        ContainerFault::Memory => LoadFault::Memory,
        other => LoadFault::Container(path, other),
    }
}

/// Why the rows of a data file with this path could not be read.
pub(crate) fn rows_fault(path: Text, fault: RowFault) -> LoadFault
    ensures { result ≡ rows_fault path fault }
{
    match fault {
        RowFault::Memory => LoadFault::Memory,
        other => LoadFault::Rows(path, other),
    }
}
