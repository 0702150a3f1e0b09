// The files that a command reads besides its table: scripts, schemas and sources.
ghost use Rattle.std.specs.Prelude.{◌≡◌, ℕ, Option, IfOk};
ghost use Rattle.std.specs.Option.{ForSome};
ghost use Rattle.std.specs.FinMap as map;
ghost use Rattle.plain_types.specs.Causes.{HasCause};
ghost use Rattle.store_core.specs.Files.{Files};
ghost use Rattle.store_core.specs.Given.{given_of};

use plain_types::Bytes as Blob;
use std::alloc::{AllocError, Global};

/// Why a read of an input gave no answer.
#[derive(Clone, Copy, Debug, PartialEq, Eq)]
pub enum IoFault {
    /// The read failed, and the count of faults rose.
    Failed,
    Memory,
}

impl From<AllocError> for IoFault {
    ghost use Rattle.std.specs.Prelude.{◌≡◌};
    ghost use Rattle.store_core.specs.declared.inputs.IoFault.TheVariants.{Memory};

    ghost from_gives = { λ _ e. e ≡ Memory };

    fn from(_: AllocError) -> Self {
        IoFault::Memory
    }
}

/// What a read of an input gives.
#[derive(Debug, Drop)]
pub enum InputAnswer {
    Found(Blob),
    Missing,
    /// It has more bytes than were asked for.
    TooLong,
}

/// Named files that are read and never changed.
pub trait Inputs {
    /// The files by their names, where the inputs tell them.
    ghost contents: { Self → Option Files };

    /// How often a read has failed. It never falls, and stands still at 2^64 - 1.
    ghost faults: { Self → ℕ };

    /// The whole file of a name, if it has at most so many bytes.
    fn read(&mut self, alloc: Global, name: &str, most: u64) -> Result<InputAnswer, IoFault>
        ensures answer { IfOk result (λ answer. ForSome (contents self.old) (λ told. answer ≡ given_of most (map.get told name.now))) }
        ensures contents { contents self.new ≡ contents self.old }
        ensures cause { HasCause IoFault.Failed IoFault.Memory (faults self.old) (faults self.new) result };
}
