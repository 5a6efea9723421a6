//! Where the ids of an opening directory first stand, and the directory that is made of a part of it.
ghost use Rattle.std.specs.Prelude.{◌≡◌, IfOk};
ghost use Rattle.dv_opening.specs.Directory.{is_seat};
ghost use Rattle.dv_opening.specs.Seats.{AreSeatsOf, directory_of};

use crate::ids::{Ids, places};
use dv_schema::Opening;
use dv_value::Id;
use std::alloc::{AllocError, Global};

/// The first place of each id of an opening directory.
#[derive(Drop)]
pub struct Seats {
    pub units: Ids,
    pub users: Ids,
    pub teams: Ids,
    pub roles: Ids,
}

impl Seats {
    /// Finds every id of an opening directory.
    pub fn of(alloc: Global, opening: &Opening) -> Result<Seats, AllocError>
        ensures { IfOk result (λ seats. AreSeatsOf opening.now seats) }
    {
        Ok(Seats {
            units: places(alloc, opening.units.as_slice())?,
            users: places(alloc, opening.users.as_slice())?,
            teams: places(alloc, opening.teams.as_slice())?,
            roles: places(alloc, opening.roles.as_slice())?,
        })
    }
}

/// The directory once the first so many units, users, teams and roles of the opening are made.
#[derive(Clone, Copy)]
pub struct Made<'a> {
    pub opening: &'a Opening,
    pub seats: &'a Seats,
    pub units: usize,
    pub users: usize,
    pub teams: usize,
    pub roles: usize,
}

impl Made<'_> {
    /// Whether an id is that of a unit.
    pub fn is_unit(&self, id: Id) -> bool
        requires { AreSeatsOf self.now.opening.now self.now.seats.now }
        ensures { result ≡ (directory_of self.now).is_unit id.0 }
    {
        id.0 == self.opening.root.0 || self.seats.units.has_before(self.units, id)
    }

    /// Whether an id is that of a user.
    pub fn is_user(&self, id: Id) -> bool
        requires { AreSeatsOf self.now.opening.now self.now.seats.now }
        ensures { result ≡ (directory_of self.now).is_user id.0 }
    {
        id.0 == self.opening.admin.0 || self.seats.users.has_before(self.users, id)
    }

    /// Whether an id is that of a further team.
    pub fn is_team(&self, id: Id) -> bool
        requires { AreSeatsOf self.now.opening.now self.now.seats.now }
        ensures { result ≡ (directory_of self.now).is_team id.0 }
    {
        self.seats.teams.has_before(self.teams, id)
    }

    /// Whether an id is that of a role other than the System Administrator.
    pub fn is_role(&self, id: Id) -> bool
        requires { AreSeatsOf self.now.opening.now self.now.seats.now }
        ensures { result ≡ (directory_of self.now).is_role id.0 }
    {
        self.seats.roles.has_before(self.roles, id)
    }

    /// Whether a new unit, user or team can't take an id.
    pub fn is_seat(&self, id: Id) -> bool
        requires { AreSeatsOf self.now.opening.now self.now.seats.now }
        ensures { result ≡ is_seat (directory_of self.now) id.0 }
    {
        id.0 == 0 || (self.is_unit(id) || (self.is_user(id) || self.is_team(id)))
    }
}
