//! What a new unit, user or team of the opening directory, a member or a role given to it is refused for.
ghost use Rattle.std.specs.Prelude.{◌≡◌, false, is_some, position};
ghost use Rattle.std.specs.List.{enumerate_from};
ghost use Rattle.dv_opening.specs.Directory.{AUser, adding_unit, adding_user, adding_team, adding_member, giving_role};
ghost use Rattle.dv_opening.specs.Opening.{unit_refused, refused_unit, user_refused, refused_user, gift_refused, team_seat, member_refused};
ghost use Rattle.dv_opening.specs.Seats.{AreSeatsOf, directory_of};

use crate::limits::{TEAMS, UNITS, USERS};
use crate::seats::{Made, Seats};
use dv_schema::{Opening, OpeningUnit, OpeningUser, Place};
use dv_value::Id;

impl Made<'_> {
    /// Whether a new unit is refused.
    #[tactic(auto, unfolding(crate::specs::Directory::adding_unit))]
    pub fn refuses_unit(&self, id: Id, parent: Id) -> bool
        requires { AreSeatsOf self.now.opening.now self.now.seats.now }
        ensures { result ≡ is_some (adding_unit (directory_of self.now) id.0 parent.0) }
    {
        if self.is_seat(id) {
            return true;
        }
        if !self.is_unit(parent) {
            return true;
        }
        UNITS - 1 <= self.units
    }

    /// Whether a new user is refused.
    #[tactic(auto, unfolding(crate::specs::Directory::adding_user))]
    pub fn refuses_user(&self, id: Id, unit: Id) -> bool
        requires { AreSeatsOf self.now.opening.now self.now.seats.now }
        ensures { result ≡ is_some (adding_user (directory_of self.now) id.0 unit.0) }
    {
        if self.is_seat(id) {
            return true;
        }
        if !self.is_unit(unit) {
            return true;
        }
        USERS - 1 <= self.users
    }

    /// Whether a new team is refused.
    #[tactic(auto, unfolding(crate::specs::Directory::adding_team))]
    pub fn refuses_team(&self, id: Id, unit: Id) -> bool
        requires { AreSeatsOf self.now.opening.now self.now.seats.now }
        ensures { result ≡ is_some (adding_team (directory_of self.now) id.0 unit.0) }
    {
        if self.is_seat(id) {
            return true;
        }
        if !self.is_unit(unit) {
            return true;
        }
        TEAMS <= self.teams
    }

    /// Whether a member of a further team is refused, where there is room.
    #[tactic(auto, unfolding(crate::specs::Directory::adding_member))]
    pub fn refuses_member(&self, access: bool, user: Id) -> bool
        requires { AreSeatsOf self.now.opening.now self.now.seats.now }
        ensures { result ≡ is_some (adding_member (directory_of self.now)
            (team_seat access) user.0 false) }
    {
        if access {
            return !self.is_user(user);
        }
        !self.is_user(user)
    }

    /// Whether a role for a user is refused.
    #[tactic(auto, unfolding(crate::specs::Directory::giving_role))]
    pub fn refuses_user_role(&self, role: Id) -> bool
        requires { AreSeatsOf self.now.opening.now self.now.seats.now }
        ensures { result ≡ is_some (giving_role (directory_of self.now) role.0 AUser) }
    {
        !(role.0 == 0 || self.is_role(role))
    }

    /// Whether a role for a further team is refused.
    #[tactic(auto, unfolding(crate::specs::Directory::giving_role))]
    pub fn refuses_team_role(&self, access: bool, role: Id) -> bool
        requires { AreSeatsOf self.now.opening.now self.now.seats.now }
        ensures { result ≡ is_some (giving_role (directory_of self.now) role.0 (team_seat access)) }
    {
        if !(role.0 == 0 || self.is_role(role)) {
            return true;
        }
        if access {
            return true;
        }
        role.0 == 0
    }

    #[tactic(auto, unfolding(crate::specs::Opening::gift_refused))]
    pub fn refuses_user_roles(&self, roles: &[Id]) -> bool
        requires { AreSeatsOf self.now.opening.now self.now.seats.now }
        ensures { result ≡ gift_refused (directory_of self.now) AUser roles.now }
    {
        roles.iter().any(|role| self.refuses_user_role(*role))
    }

    #[tactic(auto, unfolding(crate::specs::Opening::gift_refused))]
    pub fn refuses_team_roles(&self, access: bool, roles: &[Id]) -> bool
        requires { AreSeatsOf self.now.opening.now self.now.seats.now }
        ensures { result ≡ gift_refused (directory_of self.now) (team_seat access) roles.now }
    {
        roles
            .iter()
            .any(|role| self.refuses_team_role(access, *role))
    }

    #[tactic(auto, unfolding(crate::specs::Opening::member_refused))]
    pub fn refuses_members(&self, access: bool, members: &[Id]) -> bool
        requires { AreSeatsOf self.now.opening.now self.now.seats.now }
        ensures { result ≡ member_refused (directory_of self.now) (team_seat access) members.now }
    {
        members
            .iter()
            .any(|user| self.refuses_member(access, *user))
    }
}

#[tactic(auto, unfolding(crate::specs::Opening::unit_refused))]
fn unit_refused(opening: &Opening, seats: &Seats, k: usize, unit: &OpeningUnit) -> bool
    requires { AreSeatsOf opening.now seats.now }
    ensures { result ≡ unit_refused opening.now (k, unit.now) }
{
    let before = Made {
        opening,
        seats,
        units: k,
        users: 0,
        teams: 0,
        roles: 0,
    };
    before.refuses_unit(unit.id, unit.parent)
}

fn first_refused_unit(opening: &Opening, seats: &Seats) -> Option<usize>
    requires { AreSeatsOf opening.now seats.now }
    ensures { result ≡ position (unit_refused opening.now) (enumerate_from 0 opening.now.units) }
{
    let units = opening.units.as_slice();
    units
        .iter()
        .enumerate()
        .position(|(k, unit)| unit_refused(opening, seats, k, unit))
}

/// The first unit of the opening directory that is refused.
#[tactic(auto, unfolding(crate::specs::Opening::refused_unit))]
pub fn refused_unit(opening: &Opening, seats: &Seats) -> Option<Place>
    requires { AreSeatsOf opening.now seats.now }
    ensures { result ≡ refused_unit opening.now }
{
    match first_refused_unit(opening, seats) {
        Some(k) => Some(Place::BusinessUnit(k)),
        None => None,
    }
}

#[tactic(auto, unfolding(crate::specs::Opening::user_refused, crate::specs::Opening::gift_refused, crate::specs::Directory::giving_role))]
fn user_refused(opening: &Opening, seats: &Seats, k: usize, user: &OpeningUser) -> bool
    requires { AreSeatsOf opening.now seats.now }
    ensures { result ≡ user_refused opening.now (k, user.now) }
{
    let before = Made {
        opening,
        seats,
        units: opening.units.len(),
        users: k,
        teams: 0,
        roles: opening.roles.len(),
    };
    if before.refuses_user(user.id, user.unit) {
        return true;
    }
    before.refuses_user_roles(user.roles.as_slice())
}

fn first_refused_user(opening: &Opening, seats: &Seats) -> Option<usize>
    requires { AreSeatsOf opening.now seats.now }
    ensures { result ≡ position (user_refused opening.now) (enumerate_from 0 opening.now.users) }
{
    let users = opening.users.as_slice();
    users
        .iter()
        .enumerate()
        .position(|(k, user)| user_refused(opening, seats, k, user))
}

/// The first user of the opening directory that is refused, or one of whose roles is.
#[tactic(auto, unfolding(crate::specs::Opening::refused_user))]
pub fn refused_user(opening: &Opening, seats: &Seats) -> Option<Place>
    requires { AreSeatsOf opening.now seats.now }
    ensures { result ≡ refused_user opening.now }
{
    match first_refused_user(opening, seats) {
        Some(k) => Some(Place::User(k)),
        None => None,
    }
}
