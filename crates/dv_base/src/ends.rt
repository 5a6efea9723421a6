//! What gives bytes and what takes them, as the service sees them.
ghost use Rattle.std.specs.Prelude.{◌≡◌, ◌<◌, ℕ, List, Option, length, take, IfOk, OnErr};
ghost use Rattle.std.specs.Io.{ReadsAtMost, WritesAtMost};
ghost use Rattle.std.specs.Io.KnownBytes.{prepend_known, append_known};
ghost use Rattle.dv_base.specs.Faults.{HasCause};
ghost use Rattle.dv_base.specs.Source.{IsEmptyExactlyAtEnd};

use crate::faults::Failed;

/// What an end of a stream tells of itself, as a source and as a sink.
///
/// An object that is one of the two alone tells constants of the other side. What is left and what was written is
/// `None` where the object doesn't tell. An object that tells goes on telling, and one that doesn't never begins to.
pub trait Ends {
    /// The bytes that are still to be read.
    ghost left: { Self → Option (List ℕ) };

    /// The bytes that were written so far.
    ghost written: { Self → Option (List ℕ) };

    /// How often the object failed as a source. The count rises only where a read answers [`Failed`], never falls, and
    /// stands still at 2^64 - 1.
    ghost read_faults: { Self → ℕ };

    /// How often the object failed as a sink. The count rises only where a write answers [`Failed`], never falls, and
    /// stands still at 2^64 - 1.
    ghost write_faults: { Self → ℕ };
}

/// What gives bytes: a file, a socket, a list in memory.
pub trait Source: Ends {
    /// Moves bytes to the front of `buf` and answers how many.
    ///
    /// With a nonempty buffer, 0 is the end of the input; fewer bytes than the buffer holds are not. Nothing is said of
    /// the rest of `buf` behind the bytes that were moved, or of any of it after [`Failed`].
    fn read(&mut self, buf: &mut [u8]) -> Result<usize, Failed>
        ensures bound { ReadsAtMost result buf.new }
        ensures taken { IfOk result (λ n.
            Self.left self.old ≡ prepend_known (take n buf.new) (Self.left self.new)) }
        ensures end { IfOk result (λ n. IsEmptyExactlyAtEnd n buf.new (Self.left self.old)) }
        ensures kept { OnErr result (Self.left self.new ≡ Self.left self.old) }
        ensures cause { HasCause (Self.read_faults self.old) (Self.read_faults self.new) result }

        // The other side is as before.
        ensures written { Self.written self.new ≡ Self.written self.old }
        ensures write_faults { Self.write_faults self.new ≡ Self.write_faults self.old };
}

/// What takes bytes: a file, a socket, a list in memory.
pub trait Sink: Ends {
    /// Takes bytes from the front of `bytes` and answers how many: of a nonempty piece at least one.
    ///
    /// A sink that can take none of a nonempty piece counts a fault and answers [`Failed`].
    fn write(&mut self, bytes: &[u8]) -> Result<usize, Failed>
        ensures bound { WritesAtMost result bytes.now }
        ensures taken { IfOk result (λ n.
            Self.written self.new ≡ append_known (Self.written self.old) (take n bytes.now)) }
        ensures progress { IfOk result (λ n. 0 < length bytes.now → 0 < n) }
        ensures kept { OnErr result (Self.written self.new ≡ Self.written self.old) }
        ensures cause { HasCause (Self.write_faults self.old) (Self.write_faults self.new) result }

        // The other side is as before.
        ensures left { Self.left self.new ≡ Self.left self.old }
        ensures read_faults { Self.read_faults self.new ≡ Self.read_faults self.old };
}
