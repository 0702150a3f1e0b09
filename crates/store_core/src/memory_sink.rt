// A sink in memory, of a fixed room.
ghost use Rattle.std.specs.Prelude.{◌≤◌, vec_len, vec_capacity};

use crate::{Sink, SinkFault};
use std::alloc::{AllocError, Global};

/// Keeps what is written, as long as there is room. Its room is taken when it is made, so a write takes no memory.
#[derive(Debug, Drop)]
pub struct MemorySink {
    bytes: Vec<u8>,
    room: usize,
    // Calls until the one that fails, and 0 where none is to fail.
    fail_at: u64,
    faults: u64,
    ghost within: { vec_len bytes ≤ room },
    ghost roomy: { room ≤ vec_capacity bytes },
}

impl MemorySink {
    ghost use Rattle.std.specs.Prelude.{◌≡◌, [], IfOk};
    ghost use Rattle.store_core.specs.MemorySink.{sink_bytes, sink_room, sink_faults, calls_left};

    /// A sink with room for so many bytes, of which the call with a number fails, counted from 1; with 0 none does.
    pub fn new(alloc: Global, room: usize, fail_at: u64) -> Result<MemorySink, AllocError>
        ensures bytes { IfOk result (λ sink. sink_bytes sink ≡ []) }
        ensures room { IfOk result (λ sink. sink_room sink ≡ room) }
        ensures fail_at { IfOk result (λ sink. calls_left sink ≡ fail_at) }
        ensures faults { IfOk result (λ sink. sink_faults sink ≡ 0) }
    {
        Ok(MemorySink {
            bytes: Vec::with_capacity(alloc, room)?,
            room,
            fail_at,
            faults: 0,
        })
    }

    /// What was written.
    pub fn bytes(&self) -> &[u8]
        ensures { result.now ≡ sink_bytes self.now }
    {
        self.bytes.as_slice()
    }
}

impl Sink for MemorySink {
    ghost use Rattle.std.specs.Prelude.{◌≡◌, ◌≤◌, ◌<◌, ◌-◌, ◌⊎◌, ◌↔◌, Some, length, take, min, IfOk, OnErr, IsErr};
    ghost use Rattle.plain_types.specs.Causes.{Rose};
    ghost use Rattle.store_core.specs.Written.{appended, HasSinkCause};
    ghost use Rattle.store_core.specs.MemorySink.{sink_bytes, sink_room, sink_faults, calls_left};

    ghost written = { λ sink. Some (sink_bytes sink) };

    ghost faults = { sink_faults };

    fn write(&mut self, piece: &[u8]) -> Result<usize, SinkFault>
        ensures bound { IfOk result (λ count. count ≤ length piece.now) }
        ensures appends { IfOk result (λ count. Some (sink_bytes self.new) ≡ appended (take count piece.now) (Some (sink_bytes self.old))) }
        ensures nothing { OnErr result (Some (sink_bytes self.new) ≡ Some (sink_bytes self.old)) }
        ensures cause { HasSinkCause piece.now (sink_faults self.old) (sink_faults self.new) result }
        // The planned call fails, and one that finds no room for a piece that isn't empty, and no other.
        ensures fails { IsErr result ↔ (calls_left self.old ≡ 1) ⊎ ((sink_room self.old ≡ 0) × (0 < length piece.now)) }
        ensures takes { IfOk result (λ count. count ≡ min (length piece.now) (sink_room self.old)) }
        ensures counts { calls_left self.new ≡ calls_left self.old - 1 }
        ensures room { IfOk result (λ count. sink_room self.new ≡ sink_room self.old - count) }
    {
        let is_planned = self.fail_at == 1;
        self.fail_at = self.fail_at.saturating_sub(1);
        let count = piece.len().min(self.room - self.bytes.len());
        if is_planned || (count == 0 && !piece.is_empty()) {
            self.faults = self.faults.saturating_add(1);
            return Err(SinkFault::Failed);
        }
        match self.bytes.extend_from_slice(&piece[..count]) {
            Ok(()) => Ok(count),
            Err(_) => unreachable!(),
        }
    }
}
