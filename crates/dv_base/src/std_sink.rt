//! Any writer of std as a sink.
ghost use Rattle.std.specs.Prelude.{◌≡◌, ◌<◌, None, length, IfOk, OnErr};
ghost use Rattle.std.specs.Io.{WritesAtMost};
ghost use Rattle.std.specs.Io.KnownBytes.{WriteAppends};
ghost use Rattle.dv_base.specs.Faults.{raised, HasCause};

use crate::ends::{Ends, Sink};
use crate::faults::{Failed, FaultCount};
use std::io::Write;
use std::marker::Model;

/// A writer of std, as a file, a socket or the standard output. Each error of the writer is a fault, an interrupted call
/// among them, and so is a write that takes none of a nonempty piece.
///
/// As a [`Sink`] it tells nothing of the bytes that it takes: that a file or a socket keeps what it was given is
/// trusted, not proved. Its own `write` says of them what the writer says, which is more for one in memory. It never
/// flushes: give it a writer that keeps no bytes back.
#[derive(Drop)]
pub struct StdSink<W: Write> {
    writer: W,
    faults: FaultCount,
}

impl<W: Write> Model for StdSink<W> {
    ghost use Rattle.dv_base.specs.StdEnds.{SinkOver};

    ghost Value = { SinkOver W };

    ghost view = { λ s. record { writer = s.writer; faults = s.faults } };
}

impl<W: Write> StdSink<W> {
    /// A sink that writes to `writer`, and has not failed yet.
    pub fn new(writer: W) -> Self
        ensures writer { result.writer ≡ writer }
        ensures faults { result.faults ≡ 0 }
    {
        StdSink {
            writer,
            faults: FaultCount::new(),
        }
    }
}

impl<W: Write> Ends for StdSink<W> {
    ghost left = { λ _. None };

    ghost written = { λ _. None };

    ghost read_faults = { λ _. 0 };

    ghost write_faults = { λ s. s.faults };
}

impl<W: Write> Sink for StdSink<W> {
    fn write(&mut self, bytes: &[u8]) -> Result<usize, Failed>
        ensures bound { WritesAtMost result bytes.now }
        ensures bytes { WriteAppends (W.contents self.old.writer) (W.contents self.new.writer)
            result bytes.now }
        ensures progress { IfOk result (λ n. 0 < length bytes.now → 0 < n) }
        ensures cause { HasCause self.old.faults self.new.faults result }
        ensures fault { OnErr result (self.new.faults ≡ raised self.old.faults) }
    {
        match self.writer.write(bytes) {
            Ok(count) if count > 0 || bytes.is_empty() => Ok(count),
            _ => Err(self.faults.raise()),
        }
    }
}
