//! The kinds of cases: what the inputs of a file are, and what is asked of them.
use crate::{bodies, replying, requests, words};
use case_notation::{Answers, Case, Fault};

#[derive(Clone, Copy)]
pub enum Kind {
    /// A line, and the request that it is read as.
    Request,
    /// A line, and the place of its first fault.
    Fault,
    /// A message's word and a body, and the request that it is read as or the place of its first fault.
    Body,
    /// A word, and the operator or the way to join whose word it is.
    Word,
    /// A reply, and the bytes that it is printed as.
    Reply,
}

impl Answers for Kind {
    fn answer(&self, rt: &HostRuntime, case: &Case<'_>) -> Result<String, Fault> {
        let input = case.only_input()?;
        match self {
            Kind::Request => requests::request(rt.alloc(), input),
            Kind::Fault => requests::fault(rt.alloc(), input),
            Kind::Body => bodies::body(rt.alloc(), input),
            Kind::Word => words::word(rt.alloc(), input),
            Kind::Reply => replying::printed(rt.alloc(), input),
        }
    }
}
