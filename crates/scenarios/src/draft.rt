//! A line of input and its reply as they stand in a scenario file, and the exchanges that they stand for.
use crate::including::{Definitions, spelled_out};
use crate::scenario::Exchange;
use case_notation::{Fault, push_counted};
use std::alloc::Global;

/// What is said of the reply to a line.
#[derive(Clone, Copy)]
pub enum Answered {
    /// Nothing yet.
    Open,
    /// None comes.
    Nothing,
    /// It is the line that was given.
    Line,
}

/// A line as it stands in the file, and how often it comes: once, or so many times with the count in place of `$`.
#[derive(Drop)]
pub struct Draft {
    line: usize,
    times: Option<u32>,
    input: String,
    reply: String,
    pub answered: Answered,
}

impl Draft {
    /// A line whose reply isn't said yet.
    pub fn new(alloc: Global, line: usize, times: Option<u32>, input: &str) -> Result<Self, Fault> {
        Ok(Draft {
            line,
            times,
            input: String::from_str(alloc, input)?,
            reply: String::new(alloc),
            answered: Answered::Open,
        })
    }

    /// Says the reply.
    pub fn answer(&mut self, answered: Answered, reply: &str) -> Result<(), Fault> {
        match self.answered {
            Answered::Open => {
                self.answered = answered;
                Ok(self.reply.push_str(reply)?)
            }
            _ => Err(Fault::Wrong("a second reply")),
        }
    }

    /// Goes on with the reply, or with the line where its reply isn't said yet.
    pub fn go_on(&mut self, text: &str) -> Result<(), Fault> {
        match self.answered {
            Answered::Open => Ok(self.input.push_str(text)?),
            Answered::Line => Ok(self.reply.push_str(text)?),
            Answered::Nothing => Err(Fault::Wrong("nothing to go on with")),
        }
    }
}

/// The exchanges that the lines and replies stand for.
pub fn exchanges_of(
    alloc: Global,
    definitions: &Definitions,
    drafts: &[Draft],
) -> Result<Vec<Exchange>, Fault> {
    let mut exchanges = Vec::new(alloc);
    for draft in drafts {
        match draft.times {
            None => exchanges.push(once(alloc, definitions, draft)?)?,
            Some(times) => add_times(alloc, definitions, draft, times, &mut exchanges)?,
        }
    }
    Ok(exchanges)
}

fn once(alloc: Global, definitions: &Definitions, draft: &Draft) -> Result<Exchange, Fault> {
    exchange_of(
        alloc,
        definitions,
        draft,
        draft.input.as_str(),
        draft.reply.as_str(),
    )
}

// Adds the line and its reply, once for each count from 1.
fn add_times(
    alloc: Global,
    definitions: &Definitions,
    draft: &Draft,
    times: u32,
    exchanges: &mut Vec<Exchange>,
) -> Result<(), Fault> {
    for k in 0..times {
        let mut input = String::new(alloc);
        let mut reply = String::new(alloc);
        let count = k.saturating_add(1);
        push_counted(alloc, draft.input.as_str(), count, &mut input)?;
        push_counted(alloc, draft.reply.as_str(), count, &mut reply)?;
        let exchange = exchange_of(alloc, definitions, draft, input.as_str(), reply.as_str())?;
        exchanges.push(exchange)?;
    }
    Ok(())
}

fn exchange_of(
    alloc: Global,
    definitions: &Definitions,
    draft: &Draft,
    input: &str,
    reply: &str,
) -> Result<Exchange, Fault> {
    let reply = match draft.answered {
        Answered::Open => return Err(Fault::Wrong("no reply to the last line")),
        Answered::Nothing => Vec::new(alloc),
        Answered::Line => line_of(alloc, definitions, reply)?,
    };
    Ok(Exchange {
        line: draft.line,
        input: line_of(alloc, definitions, input)?,
        reply,
    })
}

// The line that the text stands for, with its line feed.
fn line_of(alloc: Global, definitions: &Definitions, text: &str) -> Result<Vec<u8>, Fault> {
    let mut line = spelled_out(alloc, definitions, text)?;
    line.push(b'\n')?;
    Ok(line)
}
