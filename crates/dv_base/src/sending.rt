//! A whole piece to a sink that may take it part by part.
ghost use Rattle.std.specs.Prelude.{◌≡◌, OnOk, OnErr};
ghost use Rattle.std.specs.Io.KnownBytes.{append_known};
ghost use Rattle.dv_base.specs.Faults.{HasCause};
ghost use Rattle.dv_base.specs.Sink.{IsCut};

use crate::ends::Sink;
use crate::faults::Failed;

/// Writes the whole piece, going on after a short write.
///
/// After [`Failed`] a front of the piece was taken and the rest of it is lost: the caller can't know where the sink
/// stands, and writes no more to it. An empty piece is never refused.
pub fn send<W: Sink>(output: &mut W, bytes: &[u8]) -> Result<(), Failed>
    ensures whole { OnOk result
        (W.written output.new ≡ append_known (W.written output.old) bytes.now) }
    ensures cut { OnErr result (IsCut bytes.now (W.written output.old) (W.written output.new)) }
    ensures cause { HasCause (W.write_faults output.old) (W.write_faults output.new) result }
    ensures left { W.left output.new ≡ W.left output.old }
    ensures read_faults { W.read_faults output.new ≡ W.read_faults output.old }
{
    let mut sent = 0;
    while sent < bytes.len() {
        sent += output.write(&bytes[sent..])?;
    }
    Ok(())
}
