ghost use Rattle.std.specs.Prelude.{◌≡◌, length};
ghost use Rattle.avro_binary.specs.declared.fault.Stop.TheVariants.{Memory};

use std::alloc::{AllocError, AllocFailed};

/// What is wrong with the bytes of a datum, or that memory ran out. Places count from 0.
#[derive(Clone, Copy, Debug, PartialEq, Eq)]
pub enum DatumFault {
    /// The bytes end there.
    Short(usize),
    /// The number that begins there has more than 10 bytes, or is too wide for its type.
    Long(usize),
    /// The index of a branch or symbol, or the boolean byte, that begins there is out of range.
    Branch(usize),
    /// The string whose length begins there isn't UTF-8.
    Text(usize),
    /// The number that begins there is a negative length or size, or counts more items than bytes are left.
    Size(usize),
    Memory,
}

#[derive(Clone, Copy, Debug, PartialEq, Eq)]
pub enum FaultKind {
    Short,
    Long,
    Branch,
    Text,
    Size,
}

/// A fault, and how many bytes are left where it begins.
#[derive(Clone, Copy, Debug, PartialEq, Eq)]
pub struct Spot {
    pub kind: FaultKind,
    pub left: usize,
}

/// Why a reader of a part of a datum stopped.
#[derive(Clone, Copy, Debug, PartialEq, Eq)]
pub enum Stop {
    Memory,
    At(Spot),
}

impl From<AllocError> for Stop {
    ghost from_gives = { λ _ e. e ≡ Memory };

    fn from(_e: AllocError) -> Stop {
        Stop::Memory
    }
}

impl<T: Drop> From<AllocFailed<T>> for Stop {
    ghost from_gives = { λ _ e. e ≡ Memory };

    fn from(_e: AllocFailed<T>) -> Stop {
        Stop::Memory
    }
}

/// The fault of bytes that end.
pub fn short() -> Stop
    ensures { result ≡ Stop.At (record { kind = FaultKind.Short; left = 0 }) }
{
    Stop::At(Spot {
        kind: FaultKind::Short,
        left: 0,
    })
}

/// The fault that begins where these bytes do.
pub fn fault(kind: FaultKind, bytes: &[u8]) -> Stop
    ensures { result ≡ Stop.At (record { kind = kind; left = length bytes.now }) }
{
    Stop::At(Spot {
        kind,
        left: bytes.len(),
    })
}
