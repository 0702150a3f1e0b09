ghost use Rattle.std.specs.Prelude.{◌≡◌, length};
ghost use Rattle.avro_binary.specs.declared.fault.Stop.{Stop as Why};
ghost use Rattle.avro_container.specs.declared.fault.ContainerFault.TheVariants.{Memory};
ghost use Rattle.avro_container.specs.Answer.{head_fault, block_fault};

use avro_binary::{DatumFault, FaultKind, SchemaFault, Spot};
use plain_types::Bytes as Blob;
use std::alloc::{AllocError, AllocFailed};

/// Why bytes are no container. Places and blocks count from 0; the faults are listed in their order.
#[derive(Debug, Drop)]
pub enum ContainerFault {
    /// The first four bytes aren't a container's.
    Magic,
    /// The file ends there, in its header or in a block's count, size or data.
    Short(usize),
    /// The metadata has another fault there, or a key that begins there stood before.
    Meta(usize),
    /// The metadata has no schema.
    NoSchema,
    /// The data is in this codec.
    Codec(Blob),
    /// The metadata's schema is none.
    Schema(SchemaFault),
    /// The block's count or size is no number or negative, its count is above its size, or its datums don't
    /// use exactly its size.
    Count(usize),
    /// A datum of the block has this fault, its place counted from the start of the block's data.
    Datum(usize, DatumFault),
    /// The bytes after the block's data aren't the header's 16, or end early.
    Sync(usize),
    Memory,
}

impl From<AllocError> for ContainerFault {
    ghost from_gives = { λ _ e. e ≡ Memory };

    fn from(_e: AllocError) -> ContainerFault {
        ContainerFault::Memory
    }
}

impl<T: Drop> From<AllocFailed<T>> for ContainerFault {
    ghost from_gives = { λ _ e. e ≡ Memory };

    fn from(_e: AllocFailed<T>) -> ContainerFault {
        ContainerFault::Memory
    }
}

/// A fault of the metadata, in a file of this length.
pub fn head_fault(whole: usize, spot: Spot) -> ContainerFault
    ensures { result ≡ head_fault whole spot }
{
    let place = whole.saturating_sub(spot.left);
    match spot.kind {
        FaultKind::Short => ContainerFault::Short(place),
        FaultKind::Long => ContainerFault::Meta(place),
        FaultKind::Branch => ContainerFault::Meta(place),
        FaultKind::Text => ContainerFault::Meta(place),
        FaultKind::Size => ContainerFault::Meta(place),
    }
}

/// A fault of a block's count, size or data, in a file of this length.
pub fn block_fault(whole: usize, block: usize, spot: Spot) -> ContainerFault
    ensures { result ≡ block_fault whole block spot }
{
    match spot.kind {
        FaultKind::Short => ContainerFault::Short(whole.saturating_sub(spot.left)),
        FaultKind::Long => ContainerFault::Count(block),
        FaultKind::Branch => ContainerFault::Count(block),
        FaultKind::Text => ContainerFault::Count(block),
        FaultKind::Size => ContainerFault::Count(block),
    }
}
