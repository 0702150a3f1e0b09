ghost use Rattle.std.specs.Prelude.{◌≡◌};
ghost use Rattle.plain_types.specs.Causes.{bump};
ghost use Rattle.store_files.specs.Counts.{counts_after};

use crate::folder;
use crate::folder::Reading;
use std::alloc::Global;
use std::io;
use std::io::ErrorKind;
use std::rt::Files;
use store_core::{Blob, List, Name, ReadAnswer, Store, StoreFault, SwapAnswer};

/// The longest file that is read, in bytes.
const LONGEST_FILE: u64 = 1 << 31;

/// A store whose names are paths below the working folder. A name is there where a regular file is, links followed. Every
/// error of the system counts as a fault, but for one that tells that a name is there or isn't.
#[derive(Drop)]
pub struct FolderStore<R> {
    rt: R,
    counts: Counts,
    /// The folders with files whose names the last swap has not brought to the disk yet.
    noted: Vec<String>,
}

#[derive(Clone, Copy, Debug, PartialEq, Eq)]
struct Counts {
    faults: u64,
    reads: u64,
    unsettled: u64,
}

impl<R: Files + AllocGlobal + Clone + Drop> FolderStore<R> {
    ghost use Rattle.std.specs.Prelude.{◌≡◌};

    /// The store below the working folder, before any call.
    pub fn new(rt: R) -> FolderStore<R>
        ensures faults { ⟦<FolderStore<R> as Store>⟧.faults result ≡ 0 }
        ensures reads { ⟦<FolderStore<R> as Store>⟧.reads result ≡ 0 }
        ensures unsettled { ⟦<FolderStore<R> as Store>⟧.unsettled result ≡ 0 }
    {
        let noted = Vec::new(rt.alloc());
        FolderStore {
            rt,
            counts: Counts {
                faults: 0,
                reads: 0,
                unsettled: 0,
            },
            noted,
        }
    }
}

impl<R: Files + AllocGlobal + Clone + Drop> Store for FolderStore<R> {
    ghost use Rattle.std.specs.Prelude.{None};

    ghost files = { λ _. None };

    ghost faults = { λ store. store.counts.faults };

    ghost reads = { λ store. store.counts.reads };

    ghost unsettled = { λ store. store.counts.unsettled };

    fn list(&mut self, alloc: Global, prefix: &str) -> Result<List<Name>, StoreFault> {
        match folder::names_with(&self.rt, alloc, prefix) {
            Ok(names) => Ok(List::from_vec(names)),
            Err(error) => Err(count(&mut self.counts, error)),
        }
    }

    fn read(&mut self, _alloc: Global, name: &str) -> Result<ReadAnswer, StoreFault> {
        self.counts.reads = self.counts.reads.saturating_add(1);
        match folder::read(&self.rt, name, LONGEST_FILE) {
            Ok(Reading::Found(bytes)) => {
                self.counts.unsettled = 0;
                Ok(ReadAnswer::Found(Blob::from_vec(bytes)))
            }
            Ok(Reading::Missing | Reading::NoFile) => Ok(ReadAnswer::Missing),
            Ok(Reading::TooLong) => {
                let error = io::Error::from(ErrorKind::FileTooLarge);
                Err(count(&mut self.counts, error))
            }
            Err(error) => Err(count(&mut self.counts, error)),
        }
    }

    fn put(&mut self, alloc: Global, name: &str, bytes: &[u8]) -> Result<(), StoreFault> {
        match folder::put(&self.rt, alloc, name, bytes, &mut self.noted) {
            Ok(()) => Ok(()),
            Err(error) => Err(count(&mut self.counts, error)),
        }
    }

    fn swap(&mut self, alloc: Global, name: &str, bytes: &[u8]) -> Result<SwapAnswer, StoreFault> {
        match folder::swap(&self.rt, alloc, name, bytes, &mut self.noted) {
            Ok(answer) => Ok(answer),
            Err(error) => Err(count(&mut self.counts, error)),
        }
    }
}

fn count(counts: &mut Counts, error: io::Error) -> StoreFault
    ensures { counts.new ≡ counts_after result counts.old }
{
    if error.kind() == ErrorKind::OutOfMemory {
        return StoreFault::Memory;
    }
    counts.faults = counts.faults.saturating_add(1);
    counts.unsettled = counts.unsettled.saturating_add(1);
    StoreFault::Failed
}
