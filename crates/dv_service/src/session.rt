//! A session: the lines of an input, answered one after another.
ghost use Rattle.std.specs.Prelude.{◌≡◌, ◌∷◌, [], Some, None};
ghost use Rattle.dv_base.specs.Clock.{ClockState};
ghost use Rattle.dv_service.specs.Outside.{outside};
ghost use Rattle.dv_service.specs.Sessions.{Wrote, RefusesFirst, TellsBegun, AnswersHeld};
ghost use Rattle.dv_service.specs.Sessions.{Takes, EndsLine, TellsWriteFault};

use crate::answer::{opened_line, refusal_line};
use crate::line_buffer::LineBuffer;
use crate::opening::{OpenFault, begin};
use crate::org::Org;
use crate::serving::{LineFault, serve_line};
use crate::status::Stop;
use dv_base::{Clock, Sink, send};
use dv_refusal::Refusal;
use std::alloc::Global;

// The line that tells that memory ran out.
const MEMORY_LINE: &[u8] = b"{\"refused\":{\"nr\":62}}\n";

// The line that tells that the clock failed.
const CLOCK_LINE: &[u8] = b"{\"refused\":{\"nr\":61}}\n";

/// The organisation, once it has begun, and the line that hasn't ended.
#[derive(Drop)]
pub struct Session {
    pub alloc: Global,
    pub org: Option<Org>,
    pub line: LineBuffer,
}

// Writes a line.
fn write_line<W: Sink>(output: &mut W, line: &[u8]) -> Result<(), Stop>
    ensures wrote { Wrote result line.now (W.written output.old) (W.written output.new) }
    ensures fault { TellsWriteFault result (W.write_faults output.old) (W.write_faults output.new) }
{
    match send(output, line) {
        Ok(()) => Ok(()),
        Err(_) => Err(Stop::WriteFault),
    }
}

// Answers a line. A fault of the clock and out of memory are answers too, which are at hand.
fn answer_line<W: Sink, C: Clock>(
    alloc: Global,
    org: &mut Org,
    line: &LineBuffer,
    output: &mut W,
    clock: &mut C,
) -> Result<(), Stop>
    ensures answers { AnswersHeld result line.now (Some org.old) (Some org.new)
        (outside (W.written output.old) (C.state clock.old))
        (outside (W.written output.new) (C.state clock.new)) }
    ensures fault { TellsWriteFault result (W.write_faults output.old) (W.write_faults output.new) }
{
    match serve_line(alloc, org, line.line(), clock) {
        Ok(text) => write_line(output, text.as_slice()),
        Err(LineFault::Clock) => write_line(output, CLOCK_LINE),
        Err(LineFault::Memory) => write_line(output, MEMORY_LINE),
    }
}

// Refuses the first line.
fn refuse_definition<W: Sink>(alloc: Global, refusal: Refusal, output: &mut W) -> Result<(), Stop>
    ensures refuses { RefusesFirst result refusal (W.written output.old) (W.written output.new) }
    ensures fault { TellsWriteFault result (W.write_faults output.old) (W.write_faults output.new) }
{
    let Ok(text) = refusal_line(alloc, refusal) else {
        return Err(Stop::OutOfMemory);
    };
    match write_line(output, text.as_slice()) {
        Ok(()) => Err(Stop::NotOpened),
        Err(stop) => Err(stop),
    }
}

// Keeps the organisation that has begun, and tells of it.
fn keep_begun<W: Sink>(
    alloc: Global,
    org: &mut Option<Org>,
    begun: Org,
    output: &mut W,
) -> Result<(), Stop>
    ensures tells { TellsBegun result begun org.new (W.written output.old) (W.written output.new) }
    ensures fault { TellsWriteFault result (W.write_faults output.old) (W.write_faults output.new) }
{
    let Ok(text) = opened_line(alloc, begun.table_count()) else {
        return Err(Stop::OutOfMemory);
    };
    match write_line(output, text.as_slice()) {
        Ok(()) => {
            *org = Some(begun);
            Ok(())
        }
        Err(stop) => Err(stop),
    }
}

// Begins the organisation by the first line. The clock isn't asked.
fn begin_by<W: Sink>(
    alloc: Global,
    org: &mut Option<Org>,
    line: &LineBuffer,
    output: &mut W,
) -> Result<(), Stop>
    ensures answers { (clock : ClockState) → AnswersHeld result line.now None org.new
        (outside (W.written output.old) clock) (outside (W.written output.new) clock) }
    ensures fault { TellsWriteFault result (W.write_faults output.old) (W.write_faults output.new) }
{
    match begin(alloc, line.line()) {
        Ok(begun) => keep_begun(alloc, org, begun, output),
        Err(OpenFault::Bad { kind, place }) => {
            refuse_definition(alloc, Refusal::BadDefinition { kind, place }, output)
        }
        Err(OpenFault::OutOfMemory) => Err(Stop::OutOfMemory),
    }
}

// Answers a line that has ended.
fn answer_ended<W: Sink, C: Clock>(
    alloc: Global,
    org: &mut Option<Org>,
    line: &LineBuffer,
    output: &mut W,
    clock: &mut C,
) -> Result<(), Stop>
    ensures answers { AnswersHeld result line.now org.old org.new
        (outside (W.written output.old) (C.state clock.old))
        (outside (W.written output.new) (C.state clock.new)) }
    ensures fault { TellsWriteFault result (W.write_faults output.old) (W.write_faults output.new) }
{
    match org {
        Some(org) => answer_line(alloc, org, line, output, clock),
        None => begin_by(alloc, org, line, output),
    }
}

/// Answers the line that ends now, unless it is blank.
pub fn end_line<W: Sink, C: Clock>(
    session: &mut Session,
    output: &mut W,
    clock: &mut C,
) -> Result<(), Stop>
    ensures ends { EndsLine result session.old session.new
        (outside (W.written output.old) (C.state clock.old))
        (outside (W.written output.new) (C.state clock.new)) }
    ensures fault { TellsWriteFault result (W.write_faults output.old) (W.write_faults output.new) }
{
    if !session.line.has_content {
        session.line.clear();
        return Ok(());
    }
    match answer_ended(
        session.alloc,
        &mut session.org,
        &session.line,
        output,
        clock,
    ) {
        Ok(()) => {
            session.line.clear();
            Ok(())
        }
        Err(stop) => Err(stop),
    }
}

// Takes the next byte of the input.
fn take_byte<W: Sink, C: Clock>(
    session: &mut Session,
    byte: u8,
    output: &mut W,
    clock: &mut C,
) -> Result<(), Stop>
    ensures takes { Takes result session.old (byte ∷ []) session.new
        (outside (W.written output.old) (C.state clock.old))
        (outside (W.written output.new) (C.state clock.new)) }
    ensures fault { TellsWriteFault result (W.write_faults output.old) (W.write_faults output.new) }
{
    if byte == b'\n' {
        end_line(session, output, clock)
    } else {
        session.line.add(byte);
        Ok(())
    }
}

/// Takes the next piece of the input.
pub fn take_piece<W: Sink, C: Clock>(
    session: &mut Session,
    piece: &[u8],
    output: &mut W,
    clock: &mut C,
) -> Result<(), Stop>
    ensures takes { Takes result session.old piece.now session.new
        (outside (W.written output.old) (C.state clock.old))
        (outside (W.written output.new) (C.state clock.new)) }
    ensures fault { TellsWriteFault result (W.write_faults output.old) (W.write_faults output.new) }
{
    for byte in piece {
        match take_byte(session, *byte, output, clock) {
            Ok(()) => {}
            Err(stop) => return Err(stop),
        }
    }
    Ok(())
}
