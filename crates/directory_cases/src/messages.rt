//! The messages: each changes the directory, or is refused.
use crate::filling::fill;
use crate::scene::Scene;
use crate::words::Words;
use case_notation::Fault;
use dv_meta::Role;
use dv_units::DirFault;
use std::alloc::Global;

/// What came of a message. None where the word is that of no message.
pub fn message(
    alloc: Global,
    scene: &mut Scene,
    word: &str,
    words: &mut Words<'_>,
) -> Result<Option<Result<(), DirFault>>, Fault> {
    match word {
        "addunit" | "moveunit" | "adduser" | "addmember" | "removemember" => {
            Ok(Some(of_two(scene, word, words)?))
        }
        "giverole" | "takerole" | "moveuser" => Ok(Some(of_roles(scene, word, words)?)),
        "setenabled" => Ok(Some(set_enabled(scene, words)?)),
        "addteam" => Ok(Some(add_team(scene, words)?)),
        "addrole" => Ok(Some(add_role(alloc, scene, words)?)),
        "setprivileges" => Ok(Some(set_privileges(alloc, scene, words)?)),
        "fill" => Ok(Some(fill(alloc, scene, words)?)),
        _ => Ok(None),
    }
}

// A change of the chart by two ids.
fn of_two(
    scene: &mut Scene,
    word: &str,
    words: &mut Words<'_>,
) -> Result<Result<(), DirFault>, Fault> {
    let first = words.id()?;
    let second = words.id()?;
    let units = scene.directory.units_mut();
    match word {
        "addunit" => Ok(units.add_unit(first, second)),
        "moveunit" => Ok(units.move_unit(first, second)),
        "adduser" => Ok(units.add_user(first, second)),
        "addmember" => Ok(units.add_member(first, second)),
        _ => Ok(units.remove_member(first, second)),
    }
}

// A change that is about roles, by two ids.
fn of_roles(
    scene: &mut Scene,
    word: &str,
    words: &mut Words<'_>,
) -> Result<Result<(), DirFault>, Fault> {
    let first = words.id()?;
    let second = words.id()?;
    match word {
        "giverole" => Ok(scene.directory.give_role(first, second)),
        "takerole" => Ok(scene.directory.take_role(first, second)),
        _ => Ok(scene.directory.move_user(first, second)),
    }
}

fn set_enabled(scene: &mut Scene, words: &mut Words<'_>) -> Result<Result<(), DirFault>, Fault> {
    let user = words.id()?;
    let enabled = words.is("yes", "no")?;
    Ok(scene.directory.set_enabled(user, enabled))
}

fn add_team(scene: &mut Scene, words: &mut Words<'_>) -> Result<Result<(), DirFault>, Fault> {
    let id = words.id()?;
    let unit = words.id()?;
    let access = words.is("access", "owner")?;
    Ok(scene.directory.units_mut().add_team(id, unit, access))
}

fn add_role(
    alloc: Global,
    scene: &mut Scene,
    words: &mut Words<'_>,
) -> Result<Result<(), DirFault>, Fault> {
    let id = words.id()?;
    let direct = words.is("direct", "team")?;
    let manage = words.is("manage", "plain")?;
    let entries = words.entries(alloc)?;
    let role = Role {
        id,
        direct,
        manage,
        entries,
    };
    Ok(scene.directory.add_role(&scene.definition, &role))
}

fn set_privileges(
    alloc: Global,
    scene: &mut Scene,
    words: &mut Words<'_>,
) -> Result<Result<(), DirFault>, Fault> {
    let role = words.id()?;
    let manage = words.is("manage", "plain")?;
    let entries = words.entries(alloc)?;
    Ok(
        scene
            .directory
            .set_privileges(&scene.definition, role, manage, entries.as_slice()),
    )
}
