//! The words of a line, taken one after the other: ids, actions, tables and numbers.
use case_notation::{Fault, found};
use dv_schema::{Action, Definition};
use dv_value::Id;

/// The words that are left of a line.
#[derive(Clone, Copy)]
pub struct Words<'a> {
    pub rest: &'a str,
}

impl<'a> Words<'a> {
    /// The next word, or an empty one at the end.
    pub fn next(&mut self) -> &'a str {
        let (word, rest) = self.rest.split_once(' ').unwrap_or((self.rest, ""));
        self.rest = rest;
        word
    }

    /// The id that the next word says, as `#7`.
    pub fn id(&mut self) -> Result<Id, Fault> {
        id_of(self.next())
    }

    /// The id that the next word says, or none by the word `none`.
    pub fn owner(&mut self) -> Result<Option<Id>, Fault> {
        let word = self.next();
        if word == "none" {
            return Ok(None);
        }
        Ok(Some(id_of(word)?))
    }

    pub fn action(&mut self) -> Result<Action, Fault> {
        found(Action::parse(self.next()), "no action")
    }

    /// The number of the table that the next word names.
    pub fn table(&mut self, definition: &Definition) -> Result<u16, Fault> {
        found(definition.table(self.next()), "no table")
    }

    pub fn number(&mut self) -> Result<u32, Fault> {
        Ok(self.next().parse::<u32>()?)
    }
}

fn id_of(word: &str) -> Result<Id, Fault> {
    let number = found(word.strip_prefix('#'), "no id")?;
    Ok(Id(number.parse::<u128>()?))
}
