//! The words of a line, one after the other.
use case_notation::{Fault, found};
use dv_meta::{Action, Entry};
use dv_value::{Id, Text};
use sqlite_items::Items;
use std::alloc::Global;

/// What is left of a line.
#[derive(Drop)]
pub struct Words<'a> {
    rest: &'a str,
}

impl<'a> Words<'a> {
    pub fn new(line: &'a str) -> Words<'a> {
        Words { rest: line }
    }

    /// The next word, which is empty where none is left.
    pub fn word(&mut self) -> &'a str {
        let (word, rest) = self.rest.split_once(' ').unwrap_or((self.rest, ""));
        self.rest = rest;
        word
    }

    /// An id, as `#7`.
    pub fn id(&mut self) -> Result<Id, Fault> {
        let word = self.word();
        let Some(number) = word.strip_prefix('#') else {
            return Err(Fault::Wrong("no id"));
        };
        Ok(Id(number.parse::<u128>()?))
    }

    pub fn count(&mut self) -> Result<u32, Fault> {
        Ok(self.word().parse::<u32>()?)
    }

    /// Whether the next word is this one, where it is one of two.
    pub fn is(&mut self, yes: &str, no: &str) -> Result<bool, Fault> {
        let word = self.word();
        if word == yes {
            return Ok(true);
        }
        if word == no {
            return Ok(false);
        }
        Err(Fault::Wrong("neither of two words"))
    }

    pub fn action(&mut self) -> Result<Action, Fault> {
        found(Action::parse(self.word()), "no action")
    }

    /// The privileges that are left.
    pub fn entries(&mut self, alloc: Global) -> Result<Items<Entry>, Fault> {
        let mut entries = Items::new(alloc);
        for word in self.rest.split(' ') {
            if !word.is_empty() {
                entries.push(entry(alloc, word)?)?;
            }
        }
        Ok(entries)
    }
}

// A privilege, as `Read,account,2`.
fn entry(alloc: Global, word: &str) -> Result<Entry, Fault> {
    let Some((action, rest)) = word.split_once(',') else {
        return Err(Fault::Wrong("no table of an entry"));
    };
    let Some((table, depth)) = rest.split_once(',') else {
        return Err(Fault::Wrong("no depth of an entry"));
    };
    let action = one_action(action)?;
    let table = one_table(alloc, table)?;
    Ok(Entry {
        action,
        table,
        depth: depth.parse::<u8>()?,
    })
}

fn one_action(word: &str) -> Result<Option<Action>, Fault> {
    if word == "*" {
        return Ok(None);
    }
    Ok(Some(found(Action::parse(word), "no action of an entry")?))
}

fn one_table(alloc: Global, word: &str) -> Result<Option<Text>, Fault> {
    if word == "*" {
        return Ok(None);
    }
    Ok(Some(Text::from_str(alloc, word)?))
}
