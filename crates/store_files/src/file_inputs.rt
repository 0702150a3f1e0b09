use crate::folder;
use crate::folder::Reading;
use std::alloc::Global;
use std::io::ErrorKind;
use std::rt::Files;
use store_core::{Blob, InputAnswer, Inputs, IoFault};

/// The files of the system as inputs, whose names are paths. Every error of the system counts as a fault, but for one that
/// tells that there is no such file; so does what is no regular file.
#[derive(Drop)]
pub struct FileInputs<R> {
    rt: R,
    faults: u64,
}

impl<R: Files + AllocGlobal> FileInputs<R> {
    ghost use Rattle.std.specs.Prelude.{◌≡◌};

    /// Before any read.
    pub fn new(rt: R) -> FileInputs<R>
        ensures { ⟦<FileInputs<R> as Inputs>⟧.faults result ≡ 0 }
    {
        FileInputs { rt, faults: 0 }
    }
}

impl<R: Files + AllocGlobal> Inputs for FileInputs<R> {
    ghost use Rattle.std.specs.Prelude.{None};

    ghost contents = { λ _. None };

    ghost faults = { λ inputs. inputs.faults };

    fn read(&mut self, _alloc: Global, name: &str, most: u64) -> Result<InputAnswer, IoFault> {
        match folder::read(&self.rt, name, most) {
            Ok(Reading::Found(bytes)) => Ok(InputAnswer::Found(Blob::from_vec(bytes))),
            Ok(Reading::TooLong) => Ok(InputAnswer::TooLong),
            Ok(Reading::Missing) => Ok(InputAnswer::Missing),
            Err(error) if error.kind() == ErrorKind::OutOfMemory => Err(IoFault::Memory),
            Ok(Reading::NoFile) | Err(_) => {
                self.faults = self.faults.saturating_add(1);
                Err(IoFault::Failed)
            }
        }
    }
}
