//! What comes of a case: the lines that answer its question.
use crate::asked::{Asked, Question};
use crate::showing::show;
use case_notation::{Answers, Case, Fault};
use dv_meta::{DefFault, DefKind, Definition, Table, read_definition};
use std::alloc::{AllocError, Global};

/// The cases of table definitions.
pub struct World;

impl Answers for World {
    fn answer(&self, rt: &HostRuntime, case: &Case<'_>) -> Result<String, Fault> {
        let asked = Asked::read(rt, case.input.as_slice())?;
        let bytes = asked.bytes(rt.alloc())?;
        let question = asked.question;
        match read_definition(rt.alloc(), bytes.as_slice(), asked.steps) {
            Ok(definition) => Ok(accepted(rt.alloc(), &definition, question)?),
            Err(DefFault::Bad { kind, place }) => Ok(refused(rt.alloc(), kind, place.as_str())?),
            Err(DefFault::OutOfMemory) => Err(Fault::OutOfMemory),
        }
    }
}

// The kind and the place of a fault.
fn refused(alloc: Global, kind: DefKind, place: &str) -> Result<String, AllocError> {
    let mut word = format!(in alloc; "{kind:?}")?;
    if !place.is_empty() {
        word.push_str(" ")?;
        word.push_str(place)?;
    }
    Ok(word)
}

fn accepted(
    alloc: Global,
    definition: &Definition,
    question: Question<'_>,
) -> Result<String, AllocError> {
    match question {
        Question::Fault => String::from_str(alloc, "accepted"),
        Question::Counts => counts(alloc, definition),
        Question::Table(name) => match definition.table(name) {
            Some(number) => number.to_string(alloc),
            None => String::from_str(alloc, "none"),
        },
        Question::Lines(beginning) => lines(alloc, definition, beginning),
    }
}

fn lines(alloc: Global, definition: &Definition, beginning: &str) -> Result<String, AllocError> {
    let shown = show(alloc, definition)?;
    let mut lines = String::new(alloc);
    for line in shown.as_str().lines() {
        if line.starts_with(beginning) {
            lines.push_str(line)?;
            lines.push_str("\n")?;
        }
    }
    Ok(lines)
}

// How many items each list of a definition has.
fn counts(alloc: Global, definition: &Definition) -> Result<String, AllocError> {
    let opening = definition.opening();
    let (least, most) = columns_of(definition.tables());
    let mut counts = String::new(alloc);
    write!(
        counts,
        "{} tables of {least} to {most} columns",
        definition.tables().len()
    )?;
    add_count(
        definition.relationships().len(),
        "relationships",
        &mut counts,
    )?;
    add_count(definition.steps().len(), "registrations", &mut counts)?;
    add_count(opening.units.len(), "units", &mut counts)?;
    add_count(opening.roles.len(), "roles", &mut counts)?;
    add_count(opening.users.len(), "users", &mut counts)?;
    add_count(opening.teams.len(), "teams", &mut counts)?;
    Ok(counts)
}

fn add_count(count: usize, list: &str, counts: &mut String) -> Result<(), AllocError> {
    write!(counts, ", {count} {list}")
}

// The least and the most columns of a table.
fn columns_of(tables: &[Table]) -> (usize, usize) {
    let mut least = usize::MAX;
    let mut most = 0usize;
    for table in tables {
        let columns = table.columns.as_slice().len();
        least = least.min(columns);
        most = most.max(columns);
    }
    (least.min(most), most)
}
