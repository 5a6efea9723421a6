//! Questions about the organisation chart: which units two principals belong to, and whose teams are whose.
ghost use Rattle.std.specs.Prelude.{◌≡◌};
ghost use Rattle.dv_units.specs.Membership.{is_in_team};
ghost use Rattle.dv_access.specs.Reaches.{is_in_unit_of, is_below, acts_as};

use dv_units::Units;
use dv_value::Id;

/// Whether an owner belongs to the business unit that a seat belongs to.
pub(crate) fn is_in_unit_of(units: &Units, seat: Id, owner: Id) -> bool
    ensures { result ≡ is_in_unit_of units.now seat owner }
{
    match (units.unit_of(seat), units.unit_of(owner)) {
        (Some(above), Some(unit)) => unit.0 == above.0,
        _ => false,
    }
}

/// Whether an owner belongs to the business unit that a seat belongs to, or to one below it.
pub(crate) fn is_below(units: &Units, seat: Id, owner: Id) -> bool
    ensures { result ≡ is_below units.now seat owner }
{
    match (units.unit_of(seat), units.unit_of(owner)) {
        (Some(above), Some(unit)) => units.within(unit, above),
        _ => false,
    }
}

/// Whether a user belongs to a team: whether the team is the first one from its id on.
pub(crate) fn is_in_team(units: &Units, user: Id, team: Id) -> bool
    ensures { result ≡ is_in_team units.now user team }
{
    let before = match team.0.checked_sub(1) {
        Some(before) => Some(Id(before)),
        None => None,
    };
    match units.team_after(user, before) {
        Some(found) => found.0 == team.0,
        None => false,
    }
}

/// Whether a user acts as a principal: whether that is the user itself or a team that it belongs to.
pub(crate) fn acts_as(units: &Units, user: Id, principal: Id) -> bool
    ensures { result ≡ acts_as units.now user principal }
{
    principal.0 == user.0 || is_in_team(units, user, principal)
}
