//! The lines that change an organisation.
use crate::scene::{Scene, allowed};
use crate::words::Words;
use case_notation::Fault;
use dv_roles::Directory;

/// Changes an organisation as a line says.
pub fn change(scene: &mut Scene<'_>, line: &str) -> Result<(), Fault> {
    let mut words = Words { rest: line };
    let word = words.next();
    match word {
        "row" => put_row(scene, words),
        "remove" => remove_row(scene, words),
        "share" => share_row(scene, words),
        "disable" => allowed(scene.directory.set_enabled(words.id()?, false)),
        "enable" => allowed(scene.directory.set_enabled(words.id()?, true)),
        _ => change_directory(&mut scene.directory, word, words),
    }
}

// Changes of the directory that have two ids.
fn change_directory(
    directory: &mut Directory,
    word: &str,
    mut words: Words<'_>,
) -> Result<(), Fault> {
    let first = words.id()?;
    let second = words.id()?;
    match word {
        "moveunit" => allowed(directory.units_mut().move_unit(first, second)),
        "moveuser" => allowed(directory.move_user(first, second)),
        "join" => allowed(directory.units_mut().add_member(second, first)),
        "leave" => allowed(directory.units_mut().remove_member(second, first)),
        "give" => allowed(directory.give_role(first, second)),
        "take" => allowed(directory.take_role(first, second)),
        _ => Err(Fault::Wrong("no change")),
    }
}

fn put_row(scene: &mut Scene<'_>, mut words: Words<'_>) -> Result<(), Fault> {
    let table = words.table(scene.definition)?;
    let id = words.id()?;
    scene.put(table, id, words.owner()?)
}

fn remove_row(scene: &mut Scene<'_>, mut words: Words<'_>) -> Result<(), Fault> {
    let table = words.table(scene.definition)?;
    scene.remove(table, words.id()?)
}

fn share_row(scene: &mut Scene<'_>, mut words: Words<'_>) -> Result<(), Fault> {
    let table = words.table(scene.definition)?;
    let id = words.id()?;
    let principal = words.id()?;
    let direct = words.number()?;
    let inherited = words.number()?;
    scene.share(table, id, principal, (direct, inherited))
}
