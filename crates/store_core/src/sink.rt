// Where a report goes.
ghost use Rattle.std.specs.Prelude.{◌≡◌, ◌≤◌, ◌<◌, ℕ, Option, List as Seq, [], length, take, IfOk, OnOk, OnErr, IsErr};
ghost use Rattle.plain_types.specs.Causes.{Rose};
ghost use Rattle.store_core.specs.Written.{appended, TakesFront, HasSinkCause};

/// A sink took nothing, and its count of faults rose.
#[derive(Clone, Copy, Debug, PartialEq, Eq)]
pub enum SinkFault {
    Failed,
}

/// Takes bytes, a piece at a time.
pub trait Sink {
    /// What was written, where the sink tells it.
    ghost written: { Self → Option (Seq ℕ) };

    /// How often a write has failed or taken nothing. It never falls, and stands still at 2^64 - 1.
    ghost faults: { Self → ℕ };

    /// Takes a front of the piece, and answers its length.
    fn write(&mut self, piece: &[u8]) -> Result<usize, SinkFault>
        ensures bound { IfOk result (λ count. count ≤ length piece.now) }
        ensures appends { IfOk result (λ count. written self.new ≡ appended (take count piece.now) (written self.old)) }
        ensures nothing { OnErr result (written self.new ≡ written self.old) }
        ensures cause { HasSinkCause piece.now (faults self.old) (faults self.new) result };
}

/// Writes the whole of the bytes, a piece at a time, until the sink fails or takes nothing.
pub fn write_all<S: Sink>(sink: &mut S, bytes: &[u8]) -> Result<(), SinkFault>
    ensures all { OnOk result (S.written sink.new ≡ appended bytes.now (S.written sink.old)) }
    ensures kept { OnOk result (S.faults sink.new ≡ S.faults sink.old) }
    ensures front { OnErr result (TakesFront bytes.now (S.written sink.old) (S.written sink.new)) }
    ensures failed { OnErr result (Rose (S.faults sink.old) (S.faults sink.new)) }
{
    let mut taken = 0;
    while taken < bytes.len() {
        let (_, rest) = bytes.split_at(taken);
        let count = sink.write(rest)?;
        if count == 0 {
            return Err(SinkFault::Failed);
        }
        taken += count;
    }
    Ok(())
}
