ghost use Rattle.std.specs.Prelude.{◌≤◌, length, IfOk};

use std::io;
use std::io::Write;
use store_core::{Sink, SinkFault};

/// The standard output as a sink. It tells nothing of what was written.
#[derive(Drop)]
pub struct StandardOutput<R> {
    rt: R,
    faults: u64,
}

impl<R: Print> StandardOutput<R> {
    ghost use Rattle.std.specs.Prelude.{◌≡◌};

    pub fn new(rt: R) -> StandardOutput<R>
        ensures { ⟦<StandardOutput<R> as Sink>⟧.faults result ≡ 0 }
    {
        StandardOutput { rt, faults: 0 }
    }
}

impl<R: Print> Sink for StandardOutput<R> {
    ghost use Rattle.std.specs.Prelude.{None};

    ghost written = { λ _. None };

    ghost faults = { λ out. out.faults };

    fn write(&mut self, piece: &[u8]) -> Result<usize, SinkFault> {
        match write_piece(&self.rt, piece) {
            Ok(count) if count > 0 || piece.is_empty() => Ok(count),
            _ => {
                self.faults = self.faults.saturating_add(1);
                Err(SinkFault::Failed)
            }
        }
    }
}

fn write_piece<R: Print>(rt: &R, piece: &[u8]) -> io::Result<usize>
    ensures { IfOk result (λ count. count ≤ length piece.now) }
{
    io::writer(rt).write(piece)
}
