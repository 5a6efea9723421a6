//! The ways back: from each state to each earlier one, and on again.
use crate::changing::{change, undo};
use crate::scene::Scene;
use crate::whole::whole;
use case_notation::{Fault, found};
use dv_meta::Definition;
use std::alloc::Global;

/// The states of a story, in words, and their marks.
#[derive(Drop)]
struct States {
    texts: Vec<String>,
    marks: Vec<usize>,
}

/// Makes the changes up to each one anew, goes back to each state before it and on again, and compares the store with
/// what it was then.
pub fn go_back(alloc: Global, definition: &Definition, changes: &[Vec<&str>]) -> Result<(), Fault> {
    let states = states_of(alloc, definition, changes)?;
    for last in 0..states.marks.len() {
        go_back_from(alloc, definition, changes, &states, last)?;
    }
    Ok(())
}

// From one state to each before it, and on again.
fn go_back_from(
    alloc: Global,
    definition: &Definition,
    changes: &[Vec<&str>],
    states: &States,
    last: usize,
) -> Result<(), Fault> {
    for (first, mark) in states.marks.iter().enumerate() {
        if first > last {
            break;
        }
        let mut scene = Scene::new(alloc, definition)?;
        make(&mut scene, changes, 0, last)?;
        undo(&mut scene, *mark)?;
        compare(&scene, states, first)?;
        make(&mut scene, changes, first, last)?;
        compare(&scene, states, last)?;
    }
    Ok(())
}

fn states_of(
    alloc: Global,
    definition: &Definition,
    changes: &[Vec<&str>],
) -> Result<States, Fault> {
    let mut scene = Scene::new(alloc, definition)?;
    let mut states = States {
        texts: Vec::new(alloc),
        marks: Vec::new(alloc),
    };
    states.texts.push(whole(&scene)?)?;
    states.marks.push(scene.store.mark())?;
    for words in changes {
        change(&mut scene, words.as_slice())?;
        states.texts.push(whole(&scene)?)?;
        states.marks.push(scene.store.mark())?;
    }
    Ok(states)
}

// Makes the changes from a first one up to, not including, a last one.
fn make(
    scene: &mut Scene<'_>,
    changes: &[Vec<&str>],
    first: usize,
    last: usize,
) -> Result<(), Fault> {
    for words in changes.iter().take(last).skip(first) {
        change(scene, words.as_slice())?;
    }
    Ok(())
}

fn compare(scene: &Scene<'_>, states: &States, at: usize) -> Result<(), Fault> {
    let text = found(states.texts.get(at), "no state")?;
    if whole(scene)?.as_str() == text.as_str() {
        Ok(())
    } else {
        Err(Fault::Wrong("the way back leads to another store"))
    }
}
