//! Any reader of std as a source.
ghost use Rattle.std.specs.Prelude.{◌≡◌, None, OnErr};
ghost use Rattle.std.specs.Io.{ReadsAtMost};
ghost use Rattle.std.specs.Io.KnownBytes.{ReadConsumes};
ghost use Rattle.dv_base.specs.Faults.{raised, HasCause};

use crate::ends::{Ends, Source};
use crate::faults::{Failed, FaultCount};
use std::io::Read;
use std::marker::Model;

/// A reader of std, as a file, a socket or the standard input. Each error of the reader is a fault, an interrupted call
/// among them.
///
/// As a [`Source`] it tells nothing of the bytes that it gives: that a file or a socket keeps what it was given is
/// trusted, not proved. Its own `read` says of them what the reader says, which is more for one in memory.
#[derive(Drop)]
pub struct StdSource<R: Read> {
    reader: R,
    faults: FaultCount,
}

impl<R: Read> Model for StdSource<R> {
    ghost use Rattle.dv_base.specs.StdEnds.{SourceOver};

    ghost Value = { SourceOver R };

    ghost view = { λ s. record { reader = s.reader; faults = s.faults } };
}

impl<R: Read> StdSource<R> {
    /// A source that reads from `reader`, and has not failed yet.
    pub fn new(reader: R) -> Self
        ensures reader { result.reader ≡ reader }
        ensures faults { result.faults ≡ 0 }
    {
        StdSource {
            reader,
            faults: FaultCount::new(),
        }
    }
}

impl<R: Read> Ends for StdSource<R> {
    ghost left = { λ _. None };

    ghost written = { λ _. None };

    ghost read_faults = { λ s. s.faults };

    ghost write_faults = { λ _. 0 };
}

impl<R: Read> Source for StdSource<R> {
    fn read(&mut self, buf: &mut [u8]) -> Result<usize, Failed>
        ensures bound { ReadsAtMost result buf.new }
        ensures bytes { ReadConsumes (R.remaining self.old.reader) (R.remaining self.new.reader)
            result buf.new }
        ensures cause { HasCause self.old.faults self.new.faults result }
        ensures fault { OnErr result (self.new.faults ≡ raised self.old.faults) }
    {
        match self.reader.read(buf) {
            Ok(count) => Ok(count),
            Err(_) => Err(self.faults.raise()),
        }
    }
}
