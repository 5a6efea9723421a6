//! Tells a run that differs: where its scenario stands, what was wanted and what came.
use crate::running::Outcome;
use crate::scenario::{Failure, Scenario};
use case_notation::Fault;

// How many bytes of a line are shown.
const SHOWN: usize = 1_000;

/// Prints the scenario's place and name, the run, both statuses, and the first line of the output that differs.
pub fn tell(
    rt: &HostRuntime,
    file: &str,
    scenario: &Scenario,
    outcome: &Outcome,
) -> Result<(), Fault> {
    println!(rt; "{file}:{}: {}", scenario.line, scenario.name)?;
    println!(rt; "  in pieces of at most {}", outcome.piece)?;
    match outcome.failure {
        None => {}
        Some(Failure::Read(call)) => println!(rt; "  where read {call} fails")?,
        Some(Failure::Write(call)) => println!(rt; "  where write {call} fails")?,
        Some(Failure::Clock(call)) => println!(rt; "  where the clock fails at call {call}")?,
        Some(Failure::Room(room)) => println!(rt; "  where there is room for {room} bytes")?,
    }
    println!(rt; "  wanted status {}", scenario.status)?;
    println!(rt; "  came   status {}", outcome.status)?;
    tell_lines(rt, file, scenario, outcome)
}

// Prints the first line of the output that differs.
fn tell_lines(
    rt: &HostRuntime,
    file: &str,
    scenario: &Scenario,
    outcome: &Outcome,
) -> Result<(), Fault> {
    let wanted = String::from_utf8_lossy(rt.alloc(), outcome.wanted.as_slice())?;
    let came = String::from_utf8_lossy(rt.alloc(), outcome.output.as_slice())?;
    let mut replies: usize = 0;
    for exchange in scenario.exchanges.iter() {
        if exchange.reply.is_empty() {
            continue;
        }
        if !is_same_line(wanted.as_str(), came.as_str(), replies) {
            println!(rt; "  in the reply to {file}:{}", exchange.line)?;
            tell_line(rt, "wanted", wanted.as_str(), replies)?;
            return tell_line(rt, "came  ", came.as_str(), replies);
        }
        replies = replies.saturating_add(1);
    }
    if came.as_str().lines().count() > replies {
        tell_line(rt, "too much came:", came.as_str(), replies)?;
    }
    Ok(())
}

// Whether two texts have one line at a place, or both have none there.
fn is_same_line(wanted: &str, came: &str, place: usize) -> bool {
    match (wanted.lines().nth(place), came.lines().nth(place)) {
        (Some(wanted), Some(came)) => wanted == came,
        (None, None) => true,
        _ => false,
    }
}

// Prints the front of the line at a place, behind what it is.
fn tell_line(rt: &HostRuntime, what: &str, text: &str, place: usize) -> Result<(), Fault> {
    match text.lines().nth(place) {
        Some(line) => println!(rt; "  {what} {}", front(line))?,
        None => println!(rt; "  {what} (nothing)")?,
    }
    Ok(())
}

// The front of a line.
fn front(line: &str) -> &str {
    match line.split_at_checked(SHOWN) {
        Some((front, _)) => front,
        None => line,
    }
}
