// Inputs in memory.
ghost use Rattle.std.specs.Prelude.{◌≡◌};

use crate::memory_store::find;
use crate::{File, InputAnswer, Inputs, IoFault};
use plain_types::{Bytes as Blob, List};
use std::alloc::Global;

/// A list of files, of whose reads one can be made to fail.
#[derive(Debug, Drop)]
pub struct MemoryInputs {
    files: List<File>,
    // Calls until the one that fails, and 0 where none is to fail.
    fail_at: u64,
    faults: u64,
}

impl MemoryInputs {
    ghost use Rattle.store_core.specs.MemoryInputs.{input_faults, input_files, reads_left};

    /// Of two files of one name the first counts. The read with a number fails, counted from 1; with 0 none does.
    pub fn with_files(files: List<File>, fail_at: u64) -> MemoryInputs
        ensures files { input_files result ≡ files }
        ensures fail_at { reads_left result ≡ fail_at }
        ensures faults { input_faults result ≡ 0 }
    {
        MemoryInputs {
            files,
            fail_at,
            faults: 0,
        }
    }
}

impl Inputs for MemoryInputs {
    ghost use Rattle.std.specs.Prelude.{◌≡◌, ◌-◌, IfOk, IsErr, IsErrOf};
    ghost use Rattle.std.specs.Option.{ForSome};
    ghost use Rattle.std.specs.FinMap as map;
    ghost use Rattle.plain_types.specs.Causes.{HasCause};
    ghost use Rattle.store_core.specs.Given.{given_of};
    ghost use Rattle.store_core.specs.MemoryInputs.{input_faults, reads_left, told_inputs};
    ghost use Rattle.store_core.specs.declared.inputs.IoFault.TheVariants as fault;

    ghost contents = { told_inputs };

    ghost faults = { input_faults };

    fn read(&mut self, alloc: Global, name: &str, most: u64) -> Result<InputAnswer, IoFault>
        ensures answer { IfOk result (λ answer. ForSome (told_inputs self.old) (λ files. answer ≡ given_of most (map.get files name.now))) }
        ensures contents { told_inputs self.new ≡ told_inputs self.old }
        ensures cause { HasCause fault.Failed fault.Memory (input_faults self.old) (input_faults self.new) result }
        // The planned call fails, and no other.
        ensures planned { IsErrOf result fault.Failed → reads_left self.old ≡ 1 }
        ensures fails { reads_left self.old ≡ 1 → IsErr result }
        ensures counts { reads_left self.new ≡ reads_left self.old - 1 }
    {
        let is_planned = self.fail_at == 1;
        self.fail_at = self.fail_at.saturating_sub(1);
        if is_planned {
            self.faults = self.faults.saturating_add(1);
            return Err(IoFault::Failed);
        }
        match find(self.files.as_slice(), name) {
            Some(bytes) if bytes.len() as u64 > most => Ok(InputAnswer::TooLong),
            Some(bytes) => Ok(InputAnswer::Found(Blob::copy_of(alloc, bytes.as_slice())?)),
            None => Ok(InputAnswer::Missing),
        }
    }
}
