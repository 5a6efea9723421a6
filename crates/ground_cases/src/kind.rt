//! The kinds of cases: what the inputs of a file are, and what is asked of them.
use crate::http::heard;
use crate::made_up::differing;
use crate::numbers::{amount, moment, printed, token, version};
use crate::values::{back, ordered, spelled, taken, typed};
use case_notation::{Answers, Case, Fault};
use std::alloc::Global;

#[derive(Clone, Copy)]
pub enum Kind {
    /// What a word asks of the values, texts or numbers behind it.
    Value,
    /// Bytes, and the HTTP messages in them.
    Http,
    /// A number of made-up inputs, and how many of them differ where they are cut.
    MadeUp,
}

impl Answers for Kind {
    fn answer(&self, rt: &HostRuntime, case: &Case<'_>) -> Result<String, Fault> {
        let input = case.only_input()?;
        match self {
            Kind::Value => value(
                rt.alloc(),
                input,
                case.wanted.first().copied().unwrap_or(""),
            ),
            Kind::Http => heard(rt.alloc(), input),
            Kind::MadeUp => differing(rt.alloc(), input),
        }
    }
}

// What comes of a case of values: its first word says what is asked of what follows it.
fn value(alloc: Global, input: &str, wanted: &str) -> Result<String, Fault> {
    let (asked, input) = input.split_once(' ').unwrap_or((input, ""));
    match asked {
        "moment" => moment(alloc, input),
        "amount" => amount(alloc, input),
        "version" => version(alloc, input),
        "token" => token(alloc, input),
        "prints" => printed(alloc, input),
        "spells" => spelled(alloc, input, wanted),
        "takes" => taken(alloc, input),
        "order" => ordered(alloc, input),
        "types" => typed(alloc, input),
        "back" => back(alloc, input),
        _ => Err(Fault::Wrong("no kind of case")),
    }
}
