//! Whether what a user holds of an action on a table reaches the rows of an owner.
ghost use Rattle.std.specs.Prelude.{◌≡◌, ◌↔◌, ◌==◌, ◌&&◌, ◌||◌, IsTrue};
ghost use Rattle.dv_access.specs.Reaches.{deep, local, is_user_owned, is_below, is_in_unit_of, covers, is_reached, Holds, Reaches};
ghost use Rattle.dv_access.specs.Gathered.{HoldsInUnits};

use crate::chart;
use dv_roles::Directory;
use dv_schema::Action;
use dv_units::Units;
use dv_value::Id;

/// The depth of a business unit.
const LOCAL: u8 = 1;

/// The depth of a business unit and those below it.
const DEEP: u8 = 2;

/// The depth of the whole organisation.
const GLOBAL: u8 = 3;

/// Whether users own the rows of a table.
pub(crate) fn is_user_owned(directory: &Directory, table: u16) -> bool
    ensures { result ≡ is_user_owned directory.now table }
{
    match directory.user_owned(table) {
        Some(owned) => owned,
        None => false,
    }
}

/// Whether a pair of a depth and a seat reaches an owner by the business units.
fn covers_by_unit(units: &Units, depth: u8, seat: Id, owner: Id) -> bool
    ensures { result ≡ (((depth == deep) && is_below units.now seat owner)
        || ((depth == local) && is_in_unit_of units.now seat owner)) }
{
    if depth == DEEP {
        return chart::is_below(units, seat, owner);
    }
    depth == LOCAL && chart::is_in_unit_of(units, seat, owner)
}

/// Whether a pair of a depth and a seat reaches an owner.
#[tactic(auto, unfolding(crate::specs::Reaches::covers))]
fn covers(units: &Units, user: Id, depth: u8, seat: Id, owner: Id) -> bool
    ensures { result ≡ covers units.now user depth seat owner }
{
    if covers_by_unit(units, depth, seat, owner) {
        return true;
    }
    if seat.0 == user.0 && chart::acts_as(units, user, owner) {
        return true;
    }
    seat.0 == owner.0
}

/// Whether a pair of a depth and a seat reaches the rows of an owner in a table.
#[tactic(auto, unfolding(crate::specs::Reaches::is_reached))]
fn is_reached(
    directory: &Directory,
    user: Id,
    table: u16,
    depth: u8,
    seat: Id,
    owner: Option<Id>,
) -> bool
    ensures { result ≡ is_reached directory.now user table depth seat owner }
{
    if depth == GLOBAL {
        return true;
    }
    match owner {
        Some(owner) => {
            is_user_owned(directory, table) && covers(directory.units(), user, depth, seat, owner)
        }
        None => false,
    }
}

/// Whether a user holds something of an action on a table.
pub(crate) fn holds(directory: &Directory, user: Id, action: Action, table: u16) -> bool
    ensures { IsTrue result ↔ Holds directory.now user action table }
{
    directory.holds(user, action, table).next().is_some()
}

/// Whether a user holds something of an action on a table over business units.
pub(crate) fn holds_in_units(directory: &Directory, user: Id, action: Action, table: u16) -> bool
    ensures { IsTrue result ↔ HoldsInUnits directory.now user action table }
{
    let mut held = directory.holds(user, action, table);
    'pairs: while let Some((depth, _)) = held.next() {
        if depth == DEEP || depth == LOCAL {
            return true;
        }
    }
    false
}

/// Whether what a user holds of an action on a table reaches the rows of an owner, or of none.
pub(crate) fn reaches(
    directory: &Directory,
    user: Id,
    action: Action,
    table: u16,
    owner: Option<Id>,
) -> bool
    ensures { IsTrue result ↔ Reaches directory.now user action table owner }
{
    let mut held = directory.holds(user, action, table);
    'pairs: while let Some((depth, seat)) = held.next() {
        if is_reached(directory, user, table, depth, seat, owner) {
            return true;
        }
    }
    false
}
