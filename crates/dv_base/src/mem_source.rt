//! A source that holds its bytes in memory.
ghost use Rattle.std.specs.Prelude.{◌≡◌, ◌-◌, ◌≤◌, ◌↔◌, ◌++◌, Some, None, length, take, drop, min, IfOk, OnErr, IsErr};
ghost use Rattle.dv_base.specs.Faults.{raised, HasCause};

use crate::ends::{Ends, Source};
use crate::faults::{Failed, FailingCall, FaultCount};
use std::marker::Model;

/// Bytes in memory, read from the front.
///
/// A read gives as many bytes as there are and as there is room for. The source fails at the one call that it was
/// made to fail at, and never else.
#[derive(Drop)]
pub struct MemSource {
    bytes: Vec<u8>,
    at: usize,
    failing_call: FailingCall,
    faults: FaultCount,
}

impl Model for MemSource {
    ghost use Rattle.std.specs.Prelude.{◌≤◌, length, drop};
    ghost use Rattle.dv_base.specs.Memory.{SourceInMemory};

    ghost Value = { SourceInMemory };

    ghost view = { λ s. record {
      left = drop s.at s.bytes.items;
      failing_call = s.failing_call;
      faults = s.faults;
    } };

    ghost invariant = { λ s. s.at ≤ length s.bytes.items };
}

impl MemSource {
    /// A source that never fails.
    pub fn new(bytes: Vec<u8>) -> Self
        ensures left { result.left ≡ bytes.items }
        ensures failing_call { result.failing_call ≡ 0 }
        ensures faults { result.faults ≡ 0 }
    {
        MemSource::failing(bytes, 0)
    }

    /// A source whose call number `failing_call` of `read` fails, counted from 1, and no other call. At 0 none fails.
    pub fn failing(bytes: Vec<u8>, failing_call: u64) -> Self
        ensures left { result.left ≡ bytes.items }
        ensures failing_call { result.failing_call ≡ failing_call }
        ensures faults { result.faults ≡ 0 }
    {
        MemSource {
            bytes,
            at: 0,
            failing_call: FailingCall::new(failing_call),
            faults: FaultCount::new(),
        }
    }
}

impl Ends for MemSource {
    ghost left = { λ s. Some s.left };

    ghost written = { λ s. None };

    ghost read_faults = { λ s. s.faults };

    ghost write_faults = { λ s. 0 };
}

impl Source for MemSource {
    fn read(&mut self, buf: &mut [u8]) -> Result<usize, Failed>
        ensures fails { IsErr result ↔ (self.old.failing_call ≡ 1) }
        ensures failing_call { self.new.failing_call ≡ self.old.failing_call - 1 }
        ensures count { IfOk result (λ n. n ≡ min (length self.old.left) (length buf.new)) }
        ensures taken { IfOk result (λ n. self.old.left ≡ take n buf.new ++ self.new.left) }
        ensures kept { OnErr result (self.new.left ≡ self.old.left) }
        ensures cause { HasCause self.old.faults self.new.faults result }
        ensures fault { OnErr result (self.new.faults ≡ raised self.old.faults) }
    {
        if self.failing_call.is_now() {
            return Err(self.faults.raise());
        }
        let count = copy_front(&self.bytes[self.at..], buf);
        self.at += count;
        Ok(count)
    }
}

/// Copies as many bytes to the front of `buf` as there are and as there is room for, and answers how many.
fn copy_front(bytes: &[u8], buf: &mut [u8]) -> usize
    ensures count { result ≡ min (length bytes.now) (length buf.new) }
    ensures copied { bytes.now ≡ take result buf.new ++ drop result bytes.now }
{
    let count = bytes.len().min(buf.len());
    buf[..count].copy_from_slice(&bytes[..count]);
    count
}
