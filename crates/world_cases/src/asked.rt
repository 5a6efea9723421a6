//! What the lines of a case ask: the text of a definition, and a question about it.
use case_notation::{Fault, bytes_of, found};
use std::alloc::Global;
use std::fs;

// The text that a case changes where it names no other.
const BASE: &str = "base.json";

// The number of steps that registrations may name where a case says none.
const STEPS: usize = 3;

/// What is asked about a text.
#[derive(Clone, Copy)]
pub enum Question<'a> {
    /// Whether it is accepted, or the kind and the place of its first fault.
    Fault,
    /// How many items each list of the definition has.
    Counts,
    /// The number of the table of a name.
    Table(&'a str),
    /// What is shown of the definition: the lines that begin so.
    Lines(&'a str),
}

/// A text and what is asked about it.
#[derive(Drop)]
pub struct Asked<'a> {
    /// The text as it is written, before its notation is expanded.
    text: String,
    has_text: bool,
    /// The old text of an edit whose new one comes next.
    old: Option<&'a str>,
    /// The bytes that the text has with blanks behind it.
    length: usize,
    pub steps: usize,
    pub question: Question<'a>,
}

impl<'a> Asked<'a> {
    /// What these lines ask.
    pub fn read(rt: &HostRuntime, lines: &[&'a str]) -> Result<Asked<'a>, Fault> {
        let mut asked = Asked {
            text: fs::read_to_string(rt, BASE)?,
            has_text: false,
            old: None,
            length: 0,
            steps: STEPS,
            question: Question::Fault,
        };
        for line in lines {
            asked.take(rt, line)?;
        }
        match asked.old {
            None => Ok(asked),
            Some(_) => Err(Fault::Wrong("an old text without a new one")),
        }
    }

    // A line of the case: its mark, a blank, and what the mark is about.
    fn take(&mut self, rt: &HostRuntime, line: &'a str) -> Result<(), Fault> {
        let (mark, rest) = line.split_once(' ').unwrap_or((line, ""));
        match mark {
            ">" => self.take_text(rt.alloc(), rest)?,
            "over" => self.text = fs::read_to_string(rt, rest)?,
            "-" => self.old = Some(rest),
            "+" => self.take_new(rt.alloc(), rest)?,
            "steps" => self.steps = rest.parse::<usize>()?,
            "length" => self.length = rest.parse::<usize>()?,
            "?" => self.question = question_of(rest)?,
            _ => return Err(Fault::Wrong("no mark of a case")),
        }
        Ok(())
    }

    // A line of a whole text.
    fn take_text(&mut self, alloc: Global, line: &str) -> Result<(), Fault> {
        if self.has_text {
            self.text.push_str("\n")?;
        } else {
            self.text = String::new(alloc);
            self.has_text = true;
        }
        Ok(self.text.push_str(line)?)
    }

    // The new text of an edit, in place of the old one, which stands in the text once.
    fn take_new(&mut self, alloc: Global, new: &str) -> Result<(), Fault> {
        let old = found(self.old.take(), "a new text without an old one")?;
        let Some((before, after)) = self.text.split_once(old) else {
            return Err(Fault::Wrong("the old text isn't there"));
        };
        if after.contains(old) {
            return Err(Fault::Wrong("the old text is there twice"));
        }
        let mut text = String::from_str(alloc, before)?;
        text.push_str(new)?;
        text.push_str(after)?;
        self.text = text;
        Ok(())
    }

    /// The bytes that the text stands for, with blanks behind it up to its length.
    pub fn bytes(&self, alloc: Global) -> Result<Vec<u8>, Fault> {
        let mut bytes = bytes_of(alloc, self.text.as_str())?;
        if bytes.len() < self.length {
            bytes.resize(self.length, b' ')?;
        }
        Ok(bytes)
    }
}

fn question_of(words: &str) -> Result<Question<'_>, Fault> {
    let (word, rest) = words.split_once(' ').unwrap_or((words, ""));
    match word {
        "counts" => Ok(Question::Counts),
        "table" => Ok(Question::Table(rest)),
        "lines" => Ok(Question::Lines(rest)),
        _ => Err(Fault::Wrong("no question")),
    }
}
