//! A sink that keeps its bytes in memory.
ghost use Rattle.std.specs.Prelude.{◌≡◌, ◌+◌, ◌-◌, ◌<◌, ◌↔◌, ◌⊎◌, ◌++◌, [], Some, None, length, IfOk, OnOk, OnErr, IsErr};
ghost use Rattle.dv_base.specs.Faults.{raised, HasCause};

use crate::ends::{Ends, Sink};
use crate::faults::{Failed, FailingCall, FaultCount};
use std::alloc::{AllocError, Global};
use std::marker::Model;

/// Room in memory for so many bytes, written from the front.
///
/// A write takes the whole piece, or none of it where the piece is longer than what is left of the room. The sink fails
/// there and at the one call that it was made to fail at, and never else: the room is reserved when the sink is made,
/// so a write takes no memory.
#[derive(Drop)]
pub struct MemSink {
    bytes: Vec<u8>,
    room: usize,
    failing_call: FailingCall,
    faults: FaultCount,
}

impl Model for MemSink {
    ghost use Rattle.std.specs.Prelude.{◌≤◌, vec_len, vec_capacity};
    ghost use Rattle.dv_base.specs.Memory.{SinkInMemory};

    ghost Value = { SinkInMemory };

    ghost view = { λ s. record {
      written = s.bytes.items;
      room = s.room;
      failing_call = s.failing_call;
      faults = s.faults;
    } };

    ghost invariant = { λ s. (vec_len s.bytes ≤ s.room) × (s.room ≤ vec_capacity s.bytes) };
}

impl MemSink {
    /// A sink with room for `room` bytes, which never fails within it. The error is out of memory for the room.
    pub fn new(alloc: Global, room: u64) -> Result<Self, AllocError>
        ensures written { IfOk result (λ sink. sink.written ≡ []) }
        ensures room { IfOk result (λ sink. sink.room ≡ room) }
        ensures failing_call { IfOk result (λ sink. sink.failing_call ≡ 0) }
        ensures faults { IfOk result (λ sink. sink.faults ≡ 0) }
    {
        MemSink::failing(alloc, room, 0)
    }

    /// A sink with room for `room` bytes, whose call number `failing_call` of `write` fails too, counted from 1. At 0 no
    /// call fails within the room. The error is out of memory for the room.
    pub fn failing(alloc: Global, room: u64, failing_call: u64) -> Result<Self, AllocError>
        ensures written { IfOk result (λ sink. sink.written ≡ []) }
        ensures room { IfOk result (λ sink. sink.room ≡ room) }
        ensures failing_call { IfOk result (λ sink. sink.failing_call ≡ failing_call) }
        ensures faults { IfOk result (λ sink. sink.faults ≡ 0) }
    {
        let room = room as usize;
        Ok(MemSink {
            bytes: Vec::with_capacity(alloc, room)?,
            room,
            failing_call: FailingCall::new(failing_call),
            faults: FaultCount::new(),
        })
    }

    /// The bytes that were written.
    pub fn bytes(&self) -> &[u8]
        ensures { result.now ≡ self.now.written }
    {
        self.bytes.as_slice()
    }
}

impl Ends for MemSink {
    ghost left = { λ s. None };

    ghost written = { λ s. Some s.written };

    ghost read_faults = { λ s. 0 };

    ghost write_faults = { λ s. s.faults };
}

impl Sink for MemSink {
    fn write(&mut self, bytes: &[u8]) -> Result<usize, Failed>
        ensures fails { IsErr result
            ↔ ((self.old.failing_call ≡ 1)
            ⊎ (self.old.room < length (self.old.written ++ bytes.now))) }
        ensures failing_call { self.new.failing_call ≡ self.old.failing_call - 1 }
        ensures room { self.new.room ≡ self.old.room }
        ensures whole { IfOk result (λ n. n ≡ length bytes.now) }
        ensures taken { OnOk result (self.new.written ≡ self.old.written ++ bytes.now) }
        ensures kept { OnErr result (self.new.written ≡ self.old.written) }
        ensures cause { HasCause self.old.faults self.new.faults result }
        ensures fault { OnErr result (self.new.faults ≡ raised self.old.faults) }
    {
        if self.failing_call.is_now() || bytes.len() > self.room - self.bytes.len() {
            return Err(self.faults.raise());
        }
        self.bytes.extend_from_slice(bytes).unwrap();
        Ok(bytes.len())
    }
}
