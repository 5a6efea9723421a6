//! Repetitions: `<3*ab>` for `ababab`, `<3,a>` for `a,a,a`, and `<0..=2,c$>` or `<3,c$>` for `c0,c1,c2`.
use crate::fault::Fault;
use std::alloc::{AllocError, Global};

// A text that comes once for each number from `first` on, up to `end` and without it.
#[derive(Clone, Copy)]
struct Repetition<'a> {
    first: u32,
    end: u32,
    between: &'static str,
    text: &'a str,
}

impl<'a> Repetition<'a> {
    // The repetition between `<` and `>`.
    fn read(inside: &'a str) -> Option<Repetition<'a>> {
        match Repetition::with_mark(inside, ',', ",") {
            Some(repetition) => Some(repetition),
            None => Repetition::with_mark(inside, '*', ""),
        }
    }

    // The repetition whose numbers stand before this mark.
    fn with_mark(inside: &'a str, mark: char, between: &'static str) -> Option<Repetition<'a>> {
        let (numbers, text) = inside.split_once(mark)?;
        let (first, end) = bounds_of(numbers)?;
        Some(Repetition {
            first,
            end,
            between,
            text,
        })
    }

    fn push_to(self, alloc: Global, written: &mut String) -> Result<(), AllocError> {
        for number in self.first..self.end {
            if self.first < number {
                written.push_str(self.between)?;
            }
            push_counted(alloc, self.text, number, written)?;
        }
        Ok(())
    }
}

// `N` for the numbers 0 to N - 1, or `M..=N` for those from M to N.
fn bounds_of(numbers: &str) -> Option<(u32, u32)> {
    match numbers.split_once("..=") {
        Some((first, last)) => {
            let last = last.parse::<u32>().ok()?;
            Some((first.parse::<u32>().ok()?, last.saturating_add(1)))
        }
        None => Some((0, numbers.parse::<u32>().ok()?)),
    }
}

/// Appends a text with the number in place of each `$`.
pub fn push_counted(
    alloc: Global,
    text: &str,
    number: u32,
    written: &mut String,
) -> Result<(), AllocError> {
    let number = number.to_string(alloc)?;
    let mut parts = text.split('$');
    written.push_str(parts.next().unwrap_or(""))?;
    for part in parts {
        written.push_str(number.as_str())?;
        written.push_str(part)?;
    }
    Ok(())
}

/// The text with its repetitions written out. One that stands in another comes first.
pub fn repeated(alloc: Global, text: &str) -> Result<String, Fault> {
    let mut written = String::from_str(alloc, text)?;
    for _ in text.matches('<') {
        written = with_last_repeated(alloc, written.as_str())?;
    }
    Ok(written)
}

// The text with its last repetition written out, which has none in it.
fn with_last_repeated(alloc: Global, text: &str) -> Result<String, Fault> {
    let Some((before, rest)) = text.rsplit_once('<') else {
        return Err(Fault::Wrong("no <"));
    };
    let Some((inside, after)) = rest.split_once('>') else {
        return Err(Fault::Wrong("no > behind <"));
    };
    let Some(repetition) = Repetition::read(inside) else {
        return Err(Fault::Wrong("no numbers behind <"));
    };
    let mut written = String::from_str(alloc, before)?;
    repetition.push_to(alloc, &mut written)?;
    written.push_str(after)?;
    Ok(written)
}
