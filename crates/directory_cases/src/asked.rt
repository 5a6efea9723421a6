//! The questions: what the directory tells.
use crate::scene::Scene;
use crate::words::Words;
use case_notation::{Fault, found};
use std::alloc::{AllocError, Global};

// More steps than a walk of a case has.
const STEPS: u32 = 1_000_000;

/// The answer to a question.
pub fn question(
    alloc: Global,
    scene: &Scene,
    word: &str,
    words: &mut Words<'_>,
) -> Result<String, Fault> {
    match word {
        "holds" => holds(alloc, scene, words),
        "manages" => Ok(yes_or_no(alloc, scene.directory.manages(words.id()?))?),
        "within" => within(alloc, scene, words),
        "teams" => teams(alloc, scene, words),
        "gifts" => Ok(gifts(alloc, scene)?),
        "roles" => Ok(roles(alloc, scene)?),
        _ => Err(Fault::Wrong("no message and no question")),
    }
}

fn yes_or_no(alloc: Global, yes: bool) -> Result<String, AllocError> {
    String::from_str(alloc, if yes { "yes" } else { "no" })
}

fn holds(alloc: Global, scene: &Scene, words: &mut Words<'_>) -> Result<String, Fault> {
    let user = words.id()?;
    let action = words.action()?;
    let table = found(scene.definition.table(words.word()), "no table")?;
    let mut told = String::new(alloc);
    let mut reach = scene.directory.holds(user, action, table);
    for _ in 0..STEPS {
        match reach.next() {
            Some((depth, seat)) => write!(told, "{depth} from #{}, ", seat.0)?,
            None => break,
        }
    }
    told.push_str("none")?;
    Ok(told)
}

fn within(alloc: Global, scene: &Scene, words: &mut Words<'_>) -> Result<String, Fault> {
    let unit = words.id()?;
    let above = words.id()?;
    Ok(yes_or_no(alloc, scene.directory.units().within(unit, above))?)
}

fn teams(alloc: Global, scene: &Scene, words: &mut Words<'_>) -> Result<String, Fault> {
    let user = words.id()?;
    let mut told = String::new(alloc);
    let mut after = None;
    for _ in 0..STEPS {
        after = scene.directory.units().team_after(user, after);
        match after {
            Some(team) => write!(told, "#{} ", team.0)?,
            None => break,
        }
    }
    told.push_str("none")?;
    Ok(told)
}

fn gifts(alloc: Global, scene: &Scene) -> Result<String, AllocError> {
    let mut told = String::new(alloc);
    let mut after = None;
    for _ in 0..STEPS {
        after = scene.directory.gift_after(after);
        match after {
            Some((principal, role)) => write!(told, "#{} has #{}, ", principal.0, role.0)?,
            None => break,
        }
    }
    told.push_str("none")?;
    Ok(told)
}

fn roles(alloc: Global, scene: &Scene) -> Result<String, AllocError> {
    let mut told = String::new(alloc);
    let mut after = None;
    for _ in 0..STEPS {
        match scene.directory.role_after(after) {
            Some((id, _)) => {
                write!(told, "#{} ", id.0)?;
                after = Some(id);
            }
            None => break,
        }
    }
    told.push_str("none")?;
    Ok(told)
}
