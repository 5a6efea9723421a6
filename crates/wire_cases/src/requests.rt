//! Request lines: `> LINE` as it stands, or the members of a request by the user of id 101.
use case_notation::{Fault, behind_blank, bytes_of, joined, without_wrappings};
use dv_request::Request;
use dv_value::Id;
use dv_wire::{WireFault, read_request};
use std::alloc::{AllocError, Global};

/// The request that a line is read as.
pub fn request(alloc: Global, input: &str) -> Result<String, Fault> {
    let line = line_of(alloc, input)?;
    match read_request(alloc, line.as_slice()) {
        Ok((Id(101), request)) => Ok(shown(alloc, &request)?),
        Ok(_) => Err(Fault::Wrong("a request by another caller")),
        Err(fault) => Err(told(fault)),
    }
}

fn told(fault: WireFault) -> Fault {
    match fault {
        WireFault::Malformed(_) => Fault::Wrong("a fault"),
        WireFault::OutOfMemory => Fault::OutOfMemory,
    }
}

/// The place of the first fault of a line.
pub fn fault(alloc: Global, input: &str) -> Result<String, Fault> {
    let line = line_of(alloc, input)?;
    match read_request(alloc, line.as_slice()) {
        Ok(_) => Err(Fault::Wrong("a request")),
        Err(fault) => place_of(alloc, fault),
    }
}

fn place_of(alloc: Global, fault: WireFault) -> Result<String, Fault> {
    match fault {
        WireFault::Malformed(place) => Ok(String::from_str(alloc, place.as_str())?),
        WireFault::OutOfMemory => Err(Fault::OutOfMemory),
    }
}

fn line_of(alloc: Global, input: &str) -> Result<Vec<u8>, Fault> {
    match input.strip_prefix('>') {
        Some(line) => bytes_of(alloc, behind_blank(line)),
        None => bytes_of(alloc, by_caller(alloc, input)?.as_str()),
    }
}

// The line of a request that has these members beside its caller.
fn by_caller(alloc: Global, members: &str) -> Result<String, AllocError> {
    joined(alloc, &["{\"caller\":\"#101\",", members, "}"])
}

/// The request as Rust prints it, but for the structs around texts and lists.
pub fn shown(alloc: Global, request: &Request) -> Result<String, AllocError> {
    let printed = format!(in alloc; "{request:?}")?;
    without_wrappings(alloc, printed.as_str())
}
