//! The cases of data/: their questions, and the answers.
use crate::changing::change;
use crate::scene::Scene;
use crate::wish::Wish;
use crate::words::Words;
use case_notation::{Answers, Case, Fault, bytes_of, found};
use dv_access::{Denied, Why};
use dv_meta::{DefFault, Definition, read_definition};
use std::alloc::{AllocError, Global};
use std::fs;

/// The cases of access.
pub struct Access;

impl Answers for Access {
    fn answer(&self, rt: &HostRuntime, case: &Case<'_>) -> Result<String, Fault> {
        let Some((first, lines)) = case.input.as_slice().split_first() else {
            return Err(Fault::Wrong("no line"));
        };
        let name = found(first.strip_prefix("over "), "no definition")?;
        let definition = definition_in(rt, name)?;
        let mut scene = Scene::begin(rt.alloc(), &definition)?;
        let mut out = String::new(rt.alloc());
        for line in lines {
            step(rt, &mut scene, line, &mut out)?;
        }
        Ok(out)
    }
}

// The definition in a file.
fn definition_in(rt: &HostRuntime, name: &str) -> Result<Definition, Fault> {
    let text = fs::read_to_string(rt, name)?;
    let bytes = bytes_of(rt.alloc(), text.as_str())?;
    match read_definition(rt.alloc(), bytes.as_slice(), 0) {
        Ok(definition) => Ok(definition),
        Err(DefFault::Bad { .. }) => Err(Fault::Wrong("a definition that is refused")),
        Err(DefFault::OutOfMemory) => Err(Fault::OutOfMemory),
    }
}

// A line of a case: a change, the changes in a file, or a question.
fn step(
    rt: &HostRuntime,
    scene: &mut Scene<'_>,
    line: &str,
    out: &mut String,
) -> Result<(), Fault> {
    let (mark, rest) = line.split_once(' ').unwrap_or((line, ""));
    match mark {
        ">" => change(scene, rest),
        "with" => change_by_file(rt, scene, rest),
        "?" => {
            ask(rt.alloc(), scene, rest, out)?;
            Ok(out.push('\n')?)
        }
        _ => Err(Fault::Wrong("no mark of a case")),
    }
}

fn change_by_file(rt: &HostRuntime, scene: &mut Scene<'_>, name: &str) -> Result<(), Fault> {
    let text = fs::read_to_string(rt, name)?;
    for line in text.as_str().lines() {
        if !line.is_empty() && !line.starts_with('#') {
            change(scene, line)?;
        }
    }
    Ok(())
}

fn ask(alloc: Global, scene: &Scene<'_>, question: &str, out: &mut String) -> Result<(), Fault> {
    let mut words = Words { rest: question };
    match words.next() {
        "check" => ask_each(scene, words, false, out),
        "new" => ask_each(scene, words, true, out),
        "rights" => ask_rights(alloc, scene, words, out),
        "permitted" => ask_permitted(alloc, scene, words, out),
        _ => Err(Fault::Wrong("no question")),
    }
}

// An action of a user on rows of a table, or on new rows of owners.
fn ask_each(
    scene: &Scene<'_>,
    mut words: Words<'_>,
    new: bool,
    out: &mut String,
) -> Result<(), Fault> {
    let (user, action) = (words.id()?, words.action()?);
    let wish = Wish {
        user,
        action,
        table: words.table(scene.definition)?,
    };
    for word in words.rest.split(' ') {
        let mut word = Words { rest: word };
        let answer = if new {
            scene.check_new(wish, word.owner()?)
        } else {
            scene.check(wish, word.id()?)?
        };
        push_word(word_of(answer), out)?;
    }
    Ok(())
}

// An answer in one word.
fn word_of(answer: Result<(), Denied>) -> &'static str {
    match answer {
        Ok(()) => "yes",
        Err(denied) => match denied.why {
            Why::OutOfReach => "far",
            Why::NoPrivilege => "nil",
        },
    }
}

// Appends a word, behind a blank where it isn't the first of its line.
fn push_word(word: &str, out: &mut String) -> Result<(), AllocError> {
    if !out.is_empty() && !out.as_str().ends_with('\n') {
        out.push(' ')?;
    }
    out.push_str(word)
}

fn ask_rights(
    alloc: Global,
    scene: &Scene<'_>,
    mut words: Words<'_>,
    out: &mut String,
) -> Result<(), Fault> {
    let user = words.id()?;
    let table = words.table(scene.definition)?;
    for word in words.rest.split(' ') {
        let mut word = Words { rest: word };
        let rights = scene.rights(user, table, word.id()?)?;
        push_word(rights.to_string(alloc)?.as_str(), out)?;
    }
    Ok(())
}

fn ask_permitted(
    alloc: Global,
    scene: &Scene<'_>,
    mut words: Words<'_>,
    out: &mut String,
) -> Result<(), Fault> {
    let user = words.id()?;
    let table = words.table(scene.definition)?;
    let ids = scene.permitted(user, table)?;
    if ids.is_empty() {
        push_word("none", out)?;
    }
    for id in ids.iter() {
        push_word(format!(in alloc; "#{}", id.0)?.as_str(), out)?;
    }
    Ok(())
}
