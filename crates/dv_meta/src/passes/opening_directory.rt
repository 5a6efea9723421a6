//! Fault BadDirectory: an item of the opening directory that the directory's messages would refuse.
ghost use Rattle.std.specs.Prelude.{◌≡◌, is_some, position, IfOk};
ghost use Rattle.std.specs.List.{list_any, enumerate_from};
ghost use Rattle.dv_opening.specs.Directory.{is_owners', adding_entry, adding_role};
ghost use Rattle.dv_meta.specs.Index.{IsIndexOf};
ghost use Rattle.dv_meta.specs.Privileges.{entry_refused, refuses_role};
ghost use Rattle.dv_meta.specs.Named.{owned};
ghost use Rattle.dv_opening.specs.Opening.{role_refused, refused_role, bad_directory};
ghost use Rattle.dv_opening.specs.Seats.{AreSeatsOf, directory_of};

use crate::index::Index;
use crate::index::lookup::table_named;
use dv_opening::{Made, ROLES, Seats, refused_team, refused_unit, refused_user};
use dv_schema::{Action, Draft, Entry, Place, Role};
use std::alloc::{AllocError, Global};

// Whether the action is one that only rows with owners know.
fn is_owners(action: Option<Action>) -> bool
    ensures { result ≡ is_owners' action }
{
    match action {
        Some(Action::Assign) => true,
        Some(Action::Share) => true,
        _ => false,
    }
}

#[tactic(auto, unfolding(dv_opening::specs::Directory::adding_entry))]
fn entry_refused(draft: &Draft, index: &Index, entry: &Entry) -> bool
    requires { IsIndexOf draft.now index.now }
    ensures { result ≡ is_some (adding_entry (owned draft.now) entry.now) }
{
    match &entry.table {
        Some(name) => match table_named(draft, index, name) {
            Some(found) => {
                if found.table.user_owned {
                    return false;
                }
                if entry.depth != 3 {
                    return true;
                }
                is_owners(entry.action)
            }
            None => true,
        },
        None => false,
    }
}

fn one_entry_refused(draft: &Draft, index: &Index, entries: &[Entry]) -> bool
    requires { IsIndexOf draft.now index.now }
    ensures { result ≡ entry_refused draft.now entries.now }
{
    entries
        .iter()
        .any(|entry| entry_refused(draft, index, entry))
}

#[tactic(auto, unfolding(dv_opening::specs::Directory::adding_role))]
fn refuses_role(draft: &Draft, index: &Index, before: &Made<'_>, role: &Role) -> bool
    requires index { IsIndexOf draft.now index.now }
    requires seats { AreSeatsOf before.now.opening.now before.now.seats.now }
    ensures { result ≡ refuses_role draft.now (directory_of before.now) role.now }
{
    if role.id.0 == 0 || before.is_role(role.id) {
        return true;
    }
    if one_entry_refused(draft, index, role.entries.as_slice()) {
        return true;
    }
    ROLES <= before.roles
}

#[tactic(auto, unfolding(dv_opening::specs::Opening::role_refused))]
fn role_refused(draft: &Draft, index: &Index, seats: &Seats, k: usize, role: &Role) -> bool
    requires index { IsIndexOf draft.now index.now }
    requires seats { AreSeatsOf draft.now.opening seats.now }
    ensures { result ≡ role_refused (owned draft.now) draft.now.opening (k, role.now) }
{
    let opening = &draft.opening;
    let before = Made {
        opening,
        seats,
        units: opening.units.len(),
        users: 0,
        teams: 0,
        roles: k,
    };
    refuses_role(draft, index, &before, role)
}

fn first_refused_role(draft: &Draft, index: &Index, seats: &Seats) -> Option<usize>
    requires index { IsIndexOf draft.now index.now }
    requires seats { AreSeatsOf draft.now.opening seats.now }
    ensures { result ≡ position (role_refused (owned draft.now) draft.now.opening)
        (enumerate_from 0 draft.now.opening.roles) }
{
    let roles = draft.opening.roles.as_slice();
    roles
        .iter()
        .enumerate()
        .position(|(k, role)| role_refused(draft, index, seats, k, role))
}

#[tactic(auto, unfolding(dv_opening::specs::Opening::refused_role))]
fn refused_role(draft: &Draft, index: &Index, seats: &Seats) -> Option<Place>
    requires index { IsIndexOf draft.now index.now }
    requires seats { AreSeatsOf draft.now.opening seats.now }
    ensures { result ≡ refused_role (owned draft.now) draft.now.opening }
{
    match first_refused_role(draft, index, seats) {
        Some(k) => Some(Place::Role(k)),
        None => None,
    }
}

/// The first item of the opening directory that is refused.
#[tactic(auto, unfolding(dv_opening::specs::Opening::bad_directory))]
pub(crate) fn bad_directory(
    alloc: Global,
    draft: &Draft,
    index: &Index,
) -> Result<Option<Place>, AllocError>
    requires { IsIndexOf draft.now index.now }
    ensures { IfOk result (λ place. place ≡ bad_directory (owned draft.now) draft.now.opening) }
{
    let seats = Seats::of(alloc, &draft.opening)?;
    if let Some(place) = refused_unit(&draft.opening, &seats) {
        return Ok(Some(place));
    }
    if let Some(place) = refused_role(draft, index, &seats) {
        return Ok(Some(place));
    }
    if let Some(place) = refused_user(&draft.opening, &seats) {
        return Ok(Some(place));
    }
    Ok(refused_team(alloc, &draft.opening, &seats)?)
}
