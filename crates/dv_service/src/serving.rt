//! A line after the first: what it reads is served at the moment that the clock gives.
ghost use Rattle.std.specs.Prelude.{◌≡◌, ℕ, List, IfOk, IfErr, IsErrOf, option_map};
ghost use Rattle.dv_value.specs.declared.id.Id.{Id as Caller};
ghost use Rattle.dv_request.specs.declared.request.Request.{Request as Asked};
ghost use Rattle.dv_request.specs.declared.reply.Reply.{Reply as Told};
ghost use Rattle.dv_refusal.specs.declared.refusal.Refusal.TheVariants as refusal;
ghost use Rattle.dv_wire.specs.Reads.{spelled, faulty};
ghost use Rattle.dv_service.specs.Answers.{answer_line, refused};
ghost use Rattle.dv_service.specs.Lines.{within_limit};
ghost use Rattle.dv_service.specs.Replies.{Tells};
ghost use Rattle.dv_service.specs.Serving.{reading_of, is_served, Asks, ServedIf, Served};
ghost use Rattle.dv_service.specs.declared.answer.Answer.TheVariants.{Replied};

use crate::answer::refusal_line;
use crate::managing::is_of_directory;
use crate::org::Org;
use dv_base::Clock;
use dv_pipeline::is_built;
use dv_refusal::Refusal;
use dv_request::Request;
use dv_value::{Id, Text};
use dv_wire::{WireFault, read_request};
use std::alloc::Global;

/// Why a line has no reply of its own.
#[derive(Clone, Copy)]
pub enum LineFault {
    /// The clock gave no moment.
    Clock,
    /// Memory ran out.
    Memory,
}

// Whether the service is built as far as the request asks.
#[tactic(auto, unfolding(crate::specs::Serving::is_served))]
fn is_served(request: &Request) -> bool
    ensures { result ≡ is_served request.now }
{
    is_of_directory(request) || is_built(request)
}

// What a line reads. One above the limit is given as `None`.
#[tactic(auto, unfolding(crate::specs::Serving::reading_of))]
fn read(alloc: Global, line: Option<&[u8]>) -> Result<(Id, Request), WireFault>
    ensures spelled { IfOk result (λ request.
        reading_of (option_map (λ held. held.now) line.entry) ≡ spelled request) }
    ensures malformed { (place : List ℕ) → IsErrOf result (WireFault.Malformed place)
        → reading_of (option_map (λ held. held.now) line.entry) ≡ faulty place }
{
    match line {
        Some(bytes) => read_request(alloc, bytes),
        None => Err(WireFault::Malformed(Text::new(alloc))),
    }
}

// The line of a refusal.
fn refuse(alloc: Global, refusal: Refusal) -> Result<Vec<u8>, LineFault>
    ensures line { IfOk result (λ line. line.items ≡ answer_line (Replied (refused refusal))) }
    ensures memory { IfErr result (λ fault. fault ≡ LineFault.Memory) }
{
    match refusal_line(alloc, refusal) {
        Ok(line) => Ok(line),
        Err(_) => Err(LineFault::Memory),
    }
}

// Serves a request at the moment that the clock gives.
fn ask<C: Clock>(
    alloc: Global,
    org: &mut Org,
    user: Id,
    request: &Request,
    clock: &mut C,
) -> Result<Vec<u8>, LineFault>
    ensures { Tells result (λ line. line.items) (λ reply. Asks org.old user request.now
        (C.state clock.old) reply org.new (C.state clock.new)) }
{
    let Ok(now) = clock.now() else {
        return Err(LineFault::Clock);
    };
    match org.serve(alloc, user, now, request) {
        Ok(line) => Ok(line),
        Err(_) => Err(LineFault::Memory),
    }
}

// Serves a request, where the service is built as far as it asks.
fn serve_request<C: Clock>(
    alloc: Global,
    org: &mut Org,
    user: Id,
    request: &Request,
    clock: &mut C,
) -> Result<Vec<u8>, LineFault>
    ensures { Tells result (λ line. line.items) (λ reply. ServedIf (is_served request.now)
        org.old user request.now (C.state clock.old) reply org.new (C.state clock.new)) }
{
    if is_served(request) {
        ask(alloc, org, user, request, clock)
    } else {
        refuse(alloc, Refusal::NotBuilt)
    }
}

/// The line of the reply to a line, and what is done by it. A line above the limit is given as
/// `None`.
pub fn serve_line<C: Clock>(
    alloc: Global,
    org: &mut Org,
    line: Option<&[u8]>,
    clock: &mut C,
) -> Result<Vec<u8>, LineFault>
    ensures ok { (whole : List ℕ)
        → option_map (λ held. held.now) line.entry ≡ within_limit whole
        → IfOk result (λ line. (reply : Told) × Served org.old whole
        (C.state clock.old) reply org.new (C.state clock.new)
        × (line.items ≡ answer_line (Replied reply))) }
    ensures clock { (whole : List ℕ)
        → option_map (λ held. held.now) line.entry ≡ within_limit whole
        → IsErrOf result LineFault.Clock → Served org.old whole
        (C.state clock.old) (refused refusal.ClockFault) org.new (C.state clock.new) }
    ensures memory { (whole : List ℕ)
        → option_map (λ held. held.now) line.entry ≡ within_limit whole
        → IsErrOf result LineFault.Memory → Served org.old whole
        (C.state clock.old) (refused refusal.OutOfMemory) org.new (C.state clock.new) }
{
    match read(alloc, line) {
        Ok(read) => serve_request(alloc, org, read.0, &read.1, clock),
        Err(WireFault::Malformed(place)) => refuse(alloc, Refusal::Malformed { place }),
        Err(WireFault::OutOfMemory) => Err(LineFault::Memory),
    }
}
