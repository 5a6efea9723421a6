//! Runs scenarios through the service's public call, and finds the first run that differs.
use crate::ends::{NarrowSink, NarrowSource};
use crate::scenario::{Failure, Pieces, Scenario, Trouble};
use case_notation::Fault;
use dv_base::{ListClock, MemSink, MemSource};
use dv_service::{Status, top};
use std::alloc::{AllocError, Global};

/// What came of a run, and which replies were to come.
#[derive(Drop)]
pub struct Outcome {
    /// The most bytes that a read gave.
    pub piece: usize,
    pub failure: Option<Failure>,
    pub status: u8,
    pub output: Vec<u8>,
    pub wanted: Vec<u8>,
    reads: u64,
}

impl Outcome {
    fn differs(&self, scenario: &Scenario) -> bool {
        self.status != scenario.status || self.output.as_slice() != self.wanted.as_slice()
    }
}

/// Runs the scenario in each way that it asks for, up to the first run that differs.
pub fn first_difference(alloc: Global, scenario: &Scenario) -> Result<Option<Outcome>, Fault> {
    let mut input = Vec::new(alloc);
    for exchange in scenario.exchanges.iter() {
        input.extend_from_slice(exchange.input.as_slice())?;
    }
    for piece in sizes_of(alloc, &scenario.pieces, input.len())? {
        let failures = failures_of(alloc, scenario, input.as_slice(), piece)?;
        let outcome = first_differing(
            alloc,
            scenario,
            input.as_slice(),
            piece,
            failures.as_slice(),
        )?;
        if outcome.is_some() {
            return Ok(outcome);
        }
    }
    Ok(None)
}

// The first run that differs of those with these failures.
fn first_differing(
    alloc: Global,
    scenario: &Scenario,
    input: &[u8],
    piece: usize,
    failures: &[Option<Failure>],
) -> Result<Option<Outcome>, Fault> {
    if failures.is_empty() {
        return Err(Fault::Wrong("nothing can fail in this scenario"));
    }
    for failure in failures {
        let outcome = run(alloc, scenario, input, piece, *failure)?;
        if outcome.differs(scenario) {
            return Ok(Some(outcome));
        }
    }
    Ok(None)
}

// The sizes of pieces, for an input of so many bytes.
fn sizes_of(alloc: Global, pieces: &Pieces, length: usize) -> Result<Vec<usize>, Fault> {
    let mut sizes = Vec::new(alloc);
    match pieces {
        Pieces::Every => {
            for k in 0..length.max(1) {
                sizes.push(k.saturating_add(1))?;
            }
        }
        Pieces::Sizes(given) => sizes.extend_from_slice(given.as_slice())?,
    }
    Ok(sizes)
}

// What goes wrong in the runs with pieces of this size, one after another.
fn failures_of(
    alloc: Global,
    scenario: &Scenario,
    input: &[u8],
    piece: usize,
) -> Result<Vec<Option<Failure>>, Fault> {
    let mut failures = Vec::new(alloc);
    match scenario.trouble {
        Trouble::Nothing => failures.push(None)?,
        Trouble::Once(failure) => failures.push(Some(failure))?,
        Trouble::EveryRead => {
            let reads = run(alloc, scenario, input, piece, None)?.reads;
            for k in 0..reads {
                failures.push(Some(Failure::Read(k.saturating_add(1))))?;
            }
        }
        Trouble::EveryWrite => {
            for k in 0..reply_count(scenario) {
                failures.push(Some(Failure::Write(k.saturating_add(1))))?;
            }
        }
        Trouble::EveryRoom => {
            for room in 0..reply_bytes(scenario) {
                failures.push(Some(Failure::Room(room)))?;
            }
        }
    }
    Ok(failures)
}

// How many lines are answered.
fn reply_count(scenario: &Scenario) -> u64 {
    let mut count = 0u64;
    for exchange in scenario.exchanges.iter() {
        count = count.saturating_add(u64::from(!exchange.reply.is_empty()));
    }
    count
}

// How many bytes all replies have.
fn reply_bytes(scenario: &Scenario) -> u64 {
    let mut bytes = 0u64;
    for exchange in scenario.exchanges.iter() {
        bytes = bytes.saturating_add(exchange.reply.len() as u64);
    }
    bytes
}

// What the sink has room for beyond the replies, so that what comes too much is seen.
const SPARE_ROOM: u64 = 65_536;

// The calls that fail, at 0 none, and the room of the sink where it is given.
#[derive(Clone, Copy)]
struct Failing {
    read: u64,
    write: u64,
    clock: u64,
    room: Option<u64>,
}

impl Failing {
    fn of(failure: Option<Failure>) -> Failing {
        let mut failing = Failing {
            read: 0,
            write: 0,
            clock: 0,
            room: None,
        };
        match failure {
            None => {}
            Some(Failure::Read(call)) => failing.read = call,
            Some(Failure::Write(call)) => failing.write = call,
            Some(Failure::Clock(call)) => failing.clock = call,
            Some(Failure::Room(room)) => failing.room = Some(room),
        }
        failing
    }
}

// A clock that gives the scenario's moments, or 0 at each call where it has none, and fails at this call.
fn clock_of(
    alloc: Global,
    scenario: &Scenario,
    failing_call: u64,
) -> Result<ListClock, AllocError> {
    let moments = scenario.moments.as_slice();
    let last = moments.last().copied().unwrap_or(0);
    Ok(ListClock::failing(Vec::from_slice(alloc, moments)?, last, failing_call))
}

// One run over memory ends. Where the room is given, the sink takes a byte at a time, so that replies are cut anywhere.
fn run(
    alloc: Global,
    scenario: &Scenario,
    input: &[u8],
    piece: usize,
    failure: Option<Failure>,
) -> Result<Outcome, Fault> {
    let failing = Failing::of(failure);
    let mut source = NarrowSource::new(
        MemSource::failing(Vec::from_slice(alloc, input)?, failing.read),
        piece,
    );
    let ample = SPARE_ROOM.saturating_add(reply_bytes(scenario));
    let mut sink = NarrowSink {
        inner: MemSink::failing(alloc, failing.room.unwrap_or(ample), failing.write)?,
        most: if failing.room.is_some() {
            1
        } else {
            usize::MAX
        },
    };
    let mut clock = clock_of(alloc, scenario, failing.clock)?;
    let words = scenario.words.as_slice();
    let Status(status) = top(alloc, words, &mut source, &mut sink, &mut clock);
    Ok(Outcome {
        piece,
        failure,
        status,
        output: Vec::from_slice(alloc, sink.inner.bytes())?,
        wanted: replies_of(alloc, scenario, failure, source.given)?,
        reads: source.reads,
    })
}

// The replies that must come, where so many bytes of the input were given: those to the lines that ended in these bytes
// where a read fails, those before the reply whose write fails, and as much as there is room for.
fn replies_of(
    alloc: Global,
    scenario: &Scenario,
    failure: Option<Failure>,
    given: usize,
) -> Result<Vec<u8>, AllocError> {
    let mut replies = Vec::new(alloc);
    let mut ended = 0usize;
    let mut writes = 0u64;
    for exchange in scenario.exchanges.iter() {
        ended = ended.saturating_add(exchange.input.len());
        writes = writes.saturating_add(u64::from(!exchange.reply.is_empty()));
        let comes = match failure {
            Some(Failure::Read(_)) => ended <= given && exchange.input.ends_with(b"\n"),
            Some(Failure::Write(call)) => writes < call,
            _ => true,
        };
        if comes {
            replies.extend_from_slice(exchange.reply.as_slice())?;
        }
    }
    if let Some(Failure::Room(room)) = failure {
        replies.truncate(room as usize);
    }
    Ok(replies)
}
