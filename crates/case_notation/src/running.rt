//! Runs the cases of a file, and tells each that differs.
use crate::case::{Case, cases_of};
use crate::fault::Fault;
use crate::repetition::repeated;
use std::alloc::{AllocError, Global};
use std::fs;

/// What is asked of a library by the cases of a file.
pub trait Answers {
    /// The lines that answer a case.
    fn answer(&self, rt: &HostRuntime, case: &Case<'_>) -> Result<String, Fault>;
}

/// How many cases were run, and how many of them differ.
#[derive(Clone, Copy)]
pub struct Tally {
    pub cases: u32,
    pub differ: u32,
}

impl Tally {
    pub fn new() -> Tally {
        Tally {
            cases: 0,
            differ: 0,
        }
    }

    /// Prints both numbers.
    pub fn tell(self, rt: &HostRuntime) -> Result<(), Fault> {
        println!(rt; "{} cases, {} differ", self.cases, self.differ)?;
        Ok(())
    }
}

/// Runs the cases of a file. A case with another answer, and one that can't be read or run, differs and is told.
pub fn run<A: Answers>(
    rt: &HostRuntime,
    file: &str,
    answers: &A,
    tally: &mut Tally,
) -> Result<(), Fault> {
    let text = fs::read_to_string(rt, file)?;
    for case in cases_of(rt.alloc(), text.as_str())?.iter() {
        tally.cases = tally.cases.saturating_add(1);
        if !holds(rt, file, answers, case)? {
            tally.differ = tally.differ.saturating_add(1);
        }
    }
    Ok(())
}

// Whether a case holds; if not, it is told.
fn holds<A: Answers>(
    rt: &HostRuntime,
    file: &str,
    answers: &A,
    case: &Case<'_>,
) -> Result<bool, Fault> {
    let wanted = match wanted_of(rt.alloc(), case) {
        Ok(wanted) => wanted,
        Err(fault) => return told(rt, file, case, fault.words(), ""),
    };
    match answers.answer(rt, case) {
        Ok(came) if lines_of(came.as_str()) == wanted.as_str() => Ok(true),
        Ok(came) => told(rt, file, case, wanted.as_str(), lines_of(came.as_str())),
        Err(fault) => told(rt, file, case, wanted.as_str(), fault.words()),
    }
}

// Tells what was wanted of a case and what came, which differ.
fn told(
    rt: &HostRuntime,
    file: &str,
    case: &Case<'_>,
    wanted: &str,
    came: &str,
) -> Result<bool, Fault> {
    println!(rt; "{file}:{}:\n  wanted {wanted}\n  came   {came}", case.line)?;
    Ok(false)
}

// The lines of the answer that must come, with their repetitions written out.
fn wanted_of(alloc: Global, case: &Case<'_>) -> Result<String, Fault> {
    if case.input.is_empty() {
        return Err(Fault::Wrong("an answer without an input"));
    }
    let Some((first, others)) = case.wanted.split_first() else {
        return Err(Fault::Wrong("an input without an answer"));
    };
    let mut lines = String::from_str(alloc, first)?;
    push_lines(others, &mut lines)?;
    repeated(alloc, lines.as_str())
}

fn push_lines(others: &[&str], lines: &mut String) -> Result<(), AllocError> {
    for line in others {
        lines.push('\n')?;
        lines.push_str(line)?;
    }
    Ok(())
}

// The lines that came, without a line feed behind the last.
fn lines_of(came: &str) -> &str {
    came.strip_suffix('\n').unwrap_or(came)
}
