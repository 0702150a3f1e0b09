// A store of files, known by its promises.
ghost use Rattle.std.specs.Prelude.{◌≡◌, ◌≤◌, ◌⊎◌, ℕ, Option, List as Seq, None, Some, IfOk, OnOk, IsErrOf, option_map};
ghost use Rattle.std.specs.Option.{ForSome};
ghost use Rattle.std.specs.FinMap as map;
ghost use Rattle.plain_types.specs.Causes.{bump, HasCause};
ghost use Rattle.store_core.specs.Files.{Files, names_with, with_file, swapped, MayAdd, KeepsFiles};
ghost use Rattle.store_core.specs.Answers.{found, is_lost, unsettled_after, unsettled_after_read};

use plain_types::{Bytes as Blob, List, Text as Name};
use std::alloc::{AllocError, AllocFailed, Global};

/// Why a call of a store gave no answer.
#[derive(Clone, Copy, Debug, PartialEq, Eq)]
pub enum StoreFault {
    /// The store failed, and its count of faults rose.
    Failed,
    Memory,
}

impl From<AllocError> for StoreFault {
    ghost use Rattle.std.specs.Prelude.{◌≡◌};
    ghost use Rattle.store_core.specs.declared.store.StoreFault.TheVariants.{Memory};

    ghost from_gives = { λ _ e. e ≡ Memory };

    fn from(_: AllocError) -> Self {
        StoreFault::Memory
    }
}

impl<T: Drop> From<AllocFailed<T>> for StoreFault {
    ghost use Rattle.std.specs.Prelude.{◌≡◌};
    ghost use Rattle.store_core.specs.declared.store.StoreFault.TheVariants.{Memory};

    ghost from_gives = { λ _ e. e ≡ Memory };

    fn from(_: AllocFailed<T>) -> Self {
        StoreFault::Memory
    }
}

/// What a read gives.
#[derive(Debug, Drop)]
pub enum ReadAnswer {
    Found(Blob),
    Missing,
}

/// Whether a swap made its name.
#[derive(Clone, Copy, Debug, PartialEq, Eq)]
pub enum SwapAnswer {
    Won,
    Lost,
}

/// A store of named files. A name that is there keeps its bytes for good.
pub trait Store {
    /// The files by their names, where the store tells them.
    ghost files: { Self → Option Files };

    /// How often a call has failed. It never falls, and stands still at 2^64 - 1.
    ghost faults: { Self → ℕ };

    /// How often `read` was called.
    ghost reads: { Self → ℕ };

    /// How many calls have failed since a read last found its file.
    ghost unsettled: { Self → ℕ };

    /// The names that begin with a prefix, each once, in byte order.
    fn list(&mut self, alloc: Global, prefix: &str) -> Result<List<Name>, StoreFault>
        ensures names { IfOk result (λ names. ForSome (files self.old) (λ told. names ≡ names_with prefix.now told)) }
        ensures files { files self.new ≡ files self.old }
        ensures reads { reads self.new ≡ reads self.old }
        ensures unsettled { unsettled self.new ≡ unsettled_after result (unsettled self.old) }
        ensures cause { HasCause StoreFault.Failed StoreFault.Memory (faults self.old) (faults self.new) result };

    /// The whole file of a name.
    fn read(&mut self, alloc: Global, name: &str) -> Result<ReadAnswer, StoreFault>
        ensures answer { IfOk result (λ answer. ForSome (files self.old) (λ told. found answer ≡ map.get told name.now)) }
        ensures files { files self.new ≡ files self.old }
        ensures reads { reads self.new ≡ bump (reads self.old) }
        ensures unsettled { unsettled self.new ≡ unsettled_after_read result (unsettled self.old) }
        ensures cause { HasCause StoreFault.Failed StoreFault.Memory (faults self.old) (faults self.new) result };

    /// Makes a file under a new name. One that failed may have left anything there, or nothing.
    fn put(&mut self, alloc: Global, name: &str, bytes: &[u8]) -> Result<(), StoreFault>
        requires { ForSome (files self.old) (λ told. map.get told name.now ≡ None) }
        ensures ok { OnOk result (files self.new ≡ option_map (with_file name.now bytes.now) (files self.old)) }
        ensures failed { IsErrOf result StoreFault.Failed → MayAdd name.now (files self.old) (files self.new) }
        ensures memory { IsErrOf result StoreFault.Memory → files self.new ≡ files self.old }
        ensures kept { KeepsFiles (files self.old) (files self.new) }
        ensures reads { reads self.new ≡ reads self.old }
        ensures unsettled { unsettled self.new ≡ unsettled_after result (unsettled self.old) }
        ensures cause { HasCause StoreFault.Failed StoreFault.Memory (faults self.old) (faults self.new) result };

    /// Makes a file under a name, unless the name is there already. One that failed has made the whole file or nothing.
    fn swap(&mut self, alloc: Global, name: &str, bytes: &[u8]) -> Result<SwapAnswer, StoreFault>
        ensures answer { IfOk result (λ answer. ForSome (files self.old) (λ told. is_lost answer ≡ map.contains_key told name.now)) }
        ensures ok { OnOk result (files self.new ≡ option_map (swapped name.now bytes.now) (files self.old)) }
        ensures failed { IsErrOf result StoreFault.Failed
            → (files self.new ≡ files self.old) ⊎ (files self.new ≡ option_map (swapped name.now bytes.now) (files self.old)) }
        ensures memory { IsErrOf result StoreFault.Memory → files self.new ≡ files self.old }
        ensures kept { KeepsFiles (files self.old) (files self.new) }
        ensures reads { reads self.new ≡ reads self.old }
        ensures unsettled { unsettled self.new ≡ unsettled_after result (unsettled self.old) }
        ensures cause { HasCause StoreFault.Failed StoreFault.Memory (faults self.old) (faults self.new) result };
}
