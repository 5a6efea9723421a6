//! A file of cases: lines of input and right below them the lines of the answer, each behind `=`.
use crate::fault::{Fault, found};
use std::alloc::Global;
use std::mem;

/// A case as its file says it.
#[derive(Drop)]
pub struct Case<'a> {
    /// The number of its first line in the file.
    pub line: usize,
    /// The lines of the input, with their marks.
    pub input: Vec<&'a str>,
    /// The lines of the answer, without their marks.
    pub wanted: Vec<&'a str>,
}

impl<'a> Case<'a> {
    fn new(alloc: Global) -> Case<'a> {
        Case {
            line: 0,
            input: Vec::new(alloc),
            wanted: Vec::new(alloc),
        }
    }

    fn is_empty(&self) -> bool {
        self.input.is_empty() && self.wanted.is_empty()
    }

    // Whether the case ended before this line.
    fn ends_before(&self, line: &str) -> bool {
        if is_remark(line) {
            return !self.is_empty();
        }
        !self.wanted.is_empty() && !line.starts_with('=')
    }

    fn take(&mut self, number: usize, line: &'a str) -> Result<(), Fault> {
        if is_remark(line) {
            return Ok(());
        }
        if self.is_empty() {
            self.line = number;
        }
        match line.strip_prefix('=') {
            Some(answer) => self.wanted.push(behind_blank(answer))?,
            None => self.input.push(line)?,
        }
        Ok(())
    }

    /// The only line of the input, behind its mark `>`.
    pub fn only_input(&self) -> Result<&'a str, Fault> {
        match self.input.as_slice() {
            [line] => {
                let input = found(line.strip_prefix('>'), "an input without its mark")?;
                Ok(behind_blank(input))
            }
            _ => Err(Fault::Wrong("not one line of input")),
        }
    }
}

// Whether a line is empty or a comment.
fn is_remark(line: &str) -> bool {
    line.is_empty() || line.starts_with('#')
}

/// The text behind the blank that it may begin with.
pub fn behind_blank(text: &str) -> &str {
    text.strip_prefix(' ').unwrap_or(text)
}

/// The cases of a file. Comments and empty lines stand between them, or nothing.
pub fn cases_of<'a>(alloc: Global, text: &'a str) -> Result<Vec<Case<'a>>, Fault> {
    let mut cases = Vec::new(alloc);
    let mut case = Case::new(alloc);
    for (index, line) in text.lines().enumerate() {
        if case.ends_before(line) {
            cases.push(mem::replace(&mut case, Case::new(alloc)))?;
        }
        case.take(index.saturating_add(1), line)?;
    }
    if !case.is_empty() {
        cases.push(case)?;
    }
    Ok(cases)
}
