//! A query with numbers in place of names.
use crate::queries::Queries;
use case_notation::{Answers, Case, Fault, without_wrappings};
use dv_meta::Definition;
use dv_query::Query;
use dv_query_check::resolve;
use dv_request::Request;
use std::alloc::Global;

/// The cases of queries with numbers in place of names.
#[derive(Clone, Copy)]
pub struct Forms<'a> {
    pub queries: &'a Queries,
}

impl Answers for Forms<'_> {
    fn answer(&self, rt: &HostRuntime, case: &Case<'_>) -> Result<String, Fault> {
        match &self.queries.request(rt.alloc(), case)? {
            Request::Query { query } => shown(rt.alloc(), &self.queries.definition, query.get()),
            _ => Err(Fault::Wrong("no query")),
        }
    }
}

// The query with numbers in place of names, as Rust prints it.
fn shown(alloc: Global, definition: &Definition, query: &Query) -> Result<String, Fault> {
    match resolve(alloc, definition, query)? {
        Some(form) => {
            let printed = format!(in alloc; "{form:?}")?;
            Ok(without_wrappings(alloc, printed.as_str())?)
        }
        None => Ok(String::from_str(alloc, "none")?),
    }
}
