//! A query on the tables of a definition, and what the check says of it.
use case_notation::{Answers, Case, Fault, bytes_of, joined};
use dv_meta::{DefFault, Definition, read_definition};
use dv_query::Query;
use dv_query_check::{QueryFault, check_query};
use dv_request::Request;
use dv_wire::{WireFault, read_request};
use std::alloc::{AllocError, Global};
use std::fs;

/// The cases of queries on the tables of a definition.
#[derive(Drop)]
pub struct Queries {
    pub definition: Definition,
}

impl Queries {
    /// The cases over the definition in a file.
    pub fn read(rt: &HostRuntime, name: &str) -> Result<Queries, Fault> {
        let text = fs::read_to_string(rt, name)?;
        let bytes = bytes_of(rt.alloc(), text.as_str())?;
        match read_definition(rt.alloc(), bytes.as_slice(), 0) {
            Ok(definition) => Ok(Queries { definition }),
            Err(DefFault::Bad { .. }) => Err(Fault::Wrong("the definition is refused")),
            Err(DefFault::OutOfMemory) => Err(Fault::OutOfMemory),
        }
    }

    /// The request of a case.
    pub fn request(&self, alloc: Global, case: &Case<'_>) -> Result<Request, Fault> {
        let line = line_of(alloc, case.only_input()?)?;
        let bytes = bytes_of(alloc, line.as_str())?;
        match read_request(alloc, bytes.as_slice()) {
            Ok((_, request)) => Ok(request),
            Err(WireFault::Malformed(_)) => Err(Fault::Wrong("the line is malformed")),
            Err(WireFault::OutOfMemory) => Err(Fault::OutOfMemory),
        }
    }
}

impl Answers for Queries {
    fn answer(&self, rt: &HostRuntime, case: &Case<'_>) -> Result<String, Fault> {
        answer(
            rt.alloc(),
            &self.definition,
            &self.request(rt.alloc(), case)?,
        )
    }
}

// The line of a query that has these members.
fn line_of(alloc: Global, members: &str) -> Result<String, AllocError> {
    joined(
        alloc,
        &["{\"caller\":\"#101\",\"do\":\"query\",", members, "}"],
    )
}

fn answer(alloc: Global, definition: &Definition, request: &Request) -> Result<String, Fault> {
    match request {
        Request::Query { query } => checked(alloc, definition, query.get()),
        _ => Err(Fault::Wrong("no query")),
    }
}

// `ok`, or the kind and the place of the first fault.
fn checked(alloc: Global, definition: &Definition, query: &Query) -> Result<String, Fault> {
    match check_query(alloc, definition, query) {
        Ok(()) => Ok(String::from_str(alloc, "ok")?),
        Err(QueryFault::BadQuery { part, kind }) => {
            Ok(joined(alloc, &[kind.word(), " ", part.as_str()])?)
        }
        Err(QueryFault::OutOfMemory) => Err(Fault::OutOfMemory),
    }
}
