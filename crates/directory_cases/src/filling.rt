//! Many messages of one kind, for the limits.
use crate::scene::Scene;
use crate::words::Words;
use case_notation::Fault;
use dv_meta::Role;
use dv_units::DirFault;
use dv_value::Id;
use sqlite_items::Items;
use std::alloc::Global;

/// So many messages with ids from one on, up to the first that is refused.
pub fn fill(
    alloc: Global,
    scene: &mut Scene,
    words: &mut Words<'_>,
) -> Result<Result<(), DirFault>, Fault> {
    let kind = words.word();
    let from = words.id()?;
    let count = words.count()?;
    let of = words.id()?;
    for number in 0..count {
        let id = Id(from.0.saturating_add(u128::from(number)));
        if let Err(fault) = one(alloc, scene, kind, id, of)? {
            return Ok(Err(fault));
        }
    }
    Ok(Ok(()))
}

// A message about one id.
fn one(
    alloc: Global,
    scene: &mut Scene,
    kind: &str,
    id: Id,
    of: Id,
) -> Result<Result<(), DirFault>, Fault> {
    match kind {
        "unit" => Ok(scene.directory.units_mut().add_unit(id, of)),
        "user" => Ok(scene.directory.units_mut().add_user(id, of)),
        "team" => Ok(scene.directory.units_mut().add_team(id, of, false)),
        "member" => Ok(scene.directory.units_mut().add_member(of, id)),
        "role" => Ok(add_role(alloc, scene, id)),
        _ => Err(Fault::Wrong("no kind to fill")),
    }
}

// A role without privileges.
fn add_role(alloc: Global, scene: &mut Scene, id: Id) -> Result<(), DirFault> {
    let role = Role {
        id,
        direct: false,
        manage: false,
        entries: Items::new(alloc),
    };
    scene.directory.add_role(&scene.definition, &role)
}
