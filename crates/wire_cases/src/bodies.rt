//! Bodies of messages: `WORD BODY`, and the request that the body is read as or the place of its first fault.
use crate::requests::shown;
use case_notation::{Fault, bytes_of};
use dv_wire::{WireFault, knows, read_body};
use std::alloc::{AllocError, Global};

/// The request that a body is read as, or the place of its first fault.
pub fn body(alloc: Global, input: &str) -> Result<String, Fault> {
    let (word, body) = input.split_once(' ').unwrap_or((input, ""));
    let bytes = bytes_of(alloc, body)?;
    if !knows(word.as_bytes()) {
        return Err(Fault::Wrong("no word of a message"));
    }
    match read_body(alloc, word.as_bytes(), bytes.as_slice()) {
        Ok(request) => Ok(shown(alloc, &request)?),
        Err(fault) => at_place(alloc, fault),
    }
}

// The place of a fault, behind a mark that tells it from a request.
fn at_place(alloc: Global, fault: WireFault) -> Result<String, Fault> {
    match fault {
        WireFault::Malformed(place) => Ok(marked(alloc, place.as_str())?),
        WireFault::OutOfMemory => Err(Fault::OutOfMemory),
    }
}

fn marked(alloc: Global, place: &str) -> Result<String, AllocError> {
    let mut told = String::from_str(alloc, if place.is_empty() { "!" } else { "! " })?;
    told.push_str(place)?;
    Ok(told)
}
