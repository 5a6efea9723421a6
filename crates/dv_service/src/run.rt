//! A run: the input in pieces, until it ends or fails.
ghost use Rattle.std.specs.Prelude.{◌≡◌, ◌≤◌, ◌<◌, ℕ, List, Option, length};
ghost use Rattle.dv_service.specs.Lines.{lines_of};
ghost use Rattle.dv_service.specs.Outcome.{Ran};
ghost use Rattle.dv_service.specs.Outside.{Outside, outside};
ghost use Rattle.dv_service.specs.Sessions.{Stands, TellsFault};
ghost use Rattle.dv_service.specs.Turns.{Turned, Finished};

use crate::line_buffer::LineBuffer;
use crate::session::{Session, end_line, take_piece};
use crate::status::{Ending, Stop};
use dv_base::{Clock, Sink, Source};
use std::alloc::Global;

/// The most bytes of input that a run takes: 2^40.
pub const INPUT_LIMIT: u64 = 1_099_511_627_776;

// How many bytes of input are taken at once, at most.
const PIECE: usize = 65_536;

/// What one read of the input led to.
#[derive(Clone, Copy)]
pub enum Turn {
    Took(usize),
    AtEnd,
    ReadFault,
    Stopped(Stop),
}

// Reads a piece and answers the lines that end in it. A fault is the last that it meets.
fn take_turn<S: Source, W: Sink, C: Clock>(
    session: &mut Session,
    input: &mut S,
    output: &mut W,
    clock: &mut C,
    buffer: &mut [u8],
) -> Turn
    requires { 0 < length buffer.old }
    ensures turned { (taken : List ℕ) (before : Outside)
        → Stands session.old taken before (outside (W.written output.old) (C.state clock.old))
        → Turned result (length buffer.old) taken session.new (S.left input.old) (S.left input.new)
        before (outside (W.written output.new) (C.state clock.new)) }
    ensures count { (n : ℕ) → result ≡ Turn.Took n → (0 < n) × (n ≤ length buffer.old) }
    ensures read_fault { TellsFault (result ≡ Turn.ReadFault)
        (S.read_faults input.old) (S.read_faults input.new) }
    ensures write_fault { TellsFault (result ≡ Turn.Stopped Stop.WriteFault)
        (W.write_faults output.old) (W.write_faults output.new) }
{
    let count = match input.read(buffer) {
        Ok(count) => count,
        Err(_) => return Turn::ReadFault,
    };
    if count == 0 {
        return Turn::AtEnd;
    }
    match take_piece(session, &buffer[..count], output, clock) {
        Ok(()) => Turn::Took(count),
        Err(stop) => Turn::Stopped(stop),
    }
}

// Answers the last line, at the end of the input.
fn finish<W: Sink, C: Clock>(session: &mut Session, output: &mut W, clock: &mut C) -> Ending
    ensures finished { (taken : List ℕ) (before : Outside)
        → Stands session.old taken before (outside (W.written output.old) (C.state clock.old))
        → Finished result (lines_of taken) before
        (outside (W.written output.new) (C.state clock.new)) }
    ensures write_fault { TellsFault (result ≡ Ending.WriteFault)
        (W.write_faults output.old) (W.write_faults output.new) }
{
    match end_line(session, output, clock) {
        Ok(()) => match session.org {
            Some(_) => Ending::Done,
            None => Ending::NotOpened,
        },
        Err(stop) => stop.ending(),
    }
}

/// Reads the input to its end, piece by piece, and answers its lines.
pub fn run<S: Source, W: Sink, C: Clock>(
    alloc: Global,
    input: &mut S,
    output: &mut W,
    clock: &mut C,
) -> Ending
    ensures ran { Ran result (S.left input.old) (S.left input.new)
        (outside (W.written output.old) (C.state clock.old))
        (outside (W.written output.new) (C.state clock.new)) }
    ensures read_fault { TellsFault (result ≡ Ending.ReadFault)
        (S.read_faults input.old) (S.read_faults input.new) }
    ensures write_fault { TellsFault (result ≡ Ending.WriteFault)
        (W.write_faults output.old) (W.write_faults output.new) }
{
    let Ok(line) = LineBuffer::new(alloc) else {
        return Ending::OutOfMemory;
    };
    let mut session = Session {
        alloc,
        org: None,
        line,
    };
    let mut buffer = [0u8; PIECE];
    let mut taken = 0u64;
    while taken < INPUT_LIMIT {
        let room = (INPUT_LIMIT - taken).min(PIECE as u64) as usize;
        match take_turn(&mut session, input, output, clock, &mut buffer[..room]) {
            Turn::Took(count) => taken += count as u64,
            Turn::AtEnd => return finish(&mut session, output, clock),
            Turn::ReadFault => return Ending::ReadFault,
            Turn::Stopped(stop) => return stop.ending(),
        }
    }
    Ending::InputLimit
}
