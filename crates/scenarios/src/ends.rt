//! Memory ends that move at most so many bytes at once.
use dv_base::{Ends, Failed, MemSink, MemSource, Sink, Source};

/// A source that gives at most `most` bytes at once, but at least one, and counts what it did.
#[derive(Drop)]
pub struct NarrowSource {
    pub inner: MemSource,
    pub most: usize,
    /// How many reads were asked for, the one that failed among them.
    pub reads: u64,
    /// How many bytes were given.
    pub given: usize,
}

impl NarrowSource {
    pub fn new(inner: MemSource, most: usize) -> Self {
        NarrowSource {
            inner,
            most,
            reads: 0,
            given: 0,
        }
    }
}

impl Ends for NarrowSource {
    ghost use Rattle.std.specs.Prelude.{Some, None};

    ghost left = { λ s. Some s.inner.left };

    ghost written = { λ s. None };

    ghost read_faults = { λ s. s.inner.faults };

    ghost write_faults = { λ s. 0 };
}

impl Source for NarrowSource {
    fn read(&mut self, buf: &mut [u8]) -> Result<usize, Failed> {
        self.reads = self.reads.saturating_add(1);
        let room = buf.len().min(self.most.max(1));
        match self.inner.read(&mut buf[..room]) {
            Ok(count) => {
                self.given = self.given.saturating_add(count);
                Ok(count)
            }
            Err(failed) => Err(failed),
        }
    }
}

/// A sink that takes at most `most` bytes at once, but at least one.
#[derive(Drop)]
pub struct NarrowSink {
    pub inner: MemSink,
    pub most: usize,
}

impl Ends for NarrowSink {
    ghost use Rattle.std.specs.Prelude.{Some, None};

    ghost left = { λ s. None };

    ghost written = { λ s. Some s.inner.written };

    ghost read_faults = { λ s. 0 };

    ghost write_faults = { λ s. s.inner.faults };
}

impl Sink for NarrowSink {
    fn write(&mut self, bytes: &[u8]) -> Result<usize, Failed> {
        let count = bytes.len().min(self.most.max(1));
        self.inner.write(&bytes[..count])
    }
}
