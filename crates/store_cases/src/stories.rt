//! A case: changes of a store, and questions between them.
use crate::asking::ask;
use crate::changing::change;
use crate::going_back::go_back;
use crate::scene::{Scene, definition_in};
use case_notation::{Answers, Case, Fault};
use std::alloc::{AllocError, Global};

/// The cases of stores.
pub struct Stories;

impl Answers for Stories {
    fn answer(&self, rt: &HostRuntime, case: &Case<'_>) -> Result<String, Fault> {
        let definition = definition_in(rt, "base.json")?;
        let mut scene = Scene::new(rt.alloc(), &definition)?;
        tell_lines(&mut scene, case.input.as_slice())
    }
}

// What the lines of a case tell.
fn tell_lines(scene: &mut Scene<'_>, lines: &[&str]) -> Result<String, Fault> {
    let mut out = String::new(scene.alloc);
    for (number, line) in lines.iter().enumerate() {
        if line == &"back" {
            let changes = changes_of(scene.alloc, lines, number)?;
            go_back(scene.alloc, scene.definition, changes.as_slice())?;
        } else {
            tell_line(scene, line, &mut out)?;
        }
    }
    Ok(out)
}

// The changes among the lines before a number.
fn changes_of<'a>(
    alloc: Global,
    lines: &[&'a str],
    number: usize,
) -> Result<Vec<Vec<&'a str>>, AllocError> {
    let mut changes = Vec::new(alloc);
    for line in lines.iter().take(number) {
        if let Some(change) = line.strip_prefix("> ") {
            changes.push(words_of(alloc, change)?)?;
        }
    }
    Ok(changes)
}

// A change or a question.
fn tell_line(scene: &mut Scene<'_>, line: &str, out: &mut String) -> Result<(), Fault> {
    let Some((mark, rest)) = line.split_once(' ') else {
        return Err(Fault::Wrong("no mark of a case"));
    };
    let words = words_of(scene.alloc, rest)?;
    match mark {
        ">" => tell_change(scene, words.as_slice(), out),
        "?" => tell(scene, words.as_slice(), out),
        _ => Err(Fault::Wrong("no mark of a case")),
    }
}

// The words between the blanks of a line.
fn words_of<'a>(alloc: Global, line: &'a str) -> Result<Vec<&'a str>, AllocError> {
    let mut words = Vec::new(alloc);
    for word in line.split(' ') {
        words.push(word)?;
    }
    Ok(words)
}

// Makes a change, and tells the limit that refuses it.
fn tell_change(scene: &mut Scene<'_>, words: &[&str], out: &mut String) -> Result<(), Fault> {
    if let Some(what) = change(scene, words)? {
        out.push_str("limit ")?;
        out.push_str(what.word())?;
        out.push('\n')?;
    }
    Ok(())
}

// The answer to a question, or `none` where it has no words.
fn tell(scene: &Scene<'_>, words: &[&str], out: &mut String) -> Result<(), Fault> {
    let mut answer = String::new(scene.alloc);
    ask(scene, words, &mut answer)?;
    match answer.as_str().strip_prefix(' ') {
        Some(answer) => out.push_str(answer)?,
        None => out.push_str("none")?,
    }
    Ok(out.push('\n')?)
}
