//! The organisation chart, and what is asked of single ids in it.
ghost use Rattle.std.specs.Prelude.{◌≡◌, ◌≢◌, IfOk};
ghost use Rattle.std.specs.Option.{option_map};
ghost use Rattle.dv_units.specs.Chart.{root_alone, at, is_unit, is_user, is_team, is_taken};
ghost use Rattle.dv_units.specs.Membership.{unit_of};
ghost use Rattle.dv_units.specs.Rules.{IsChart};

use crate::lists;
use crate::seats::{Team, User};
use dv_value::Id;
use std::alloc::{AllocError, Global};
use std::collections::{BTreeMap, BTreeSet};
use std::marker::Model;

/// The most units that there may be, the root among them.
pub(crate) const MOST_UNITS: usize = 1_000;

/// The most users that there may be.
pub(crate) const MOST_USERS: usize = 10_000;

/// The most teams that there may be besides the default ones.
pub(crate) const MOST_TEAMS: usize = 5_000;

/// The most members that the teams besides the default ones may have together.
pub(crate) const MOST_MEMBERS: usize = 100_000;

/// Business units, users, teams and their members.
#[derive(Drop)]
pub struct Units {
    pub(crate) units: BTreeMap<Id, Id>,
    pub(crate) users: BTreeMap<Id, User>,
    pub(crate) teams: BTreeMap<Id, Team>,
    /// Pairs of team and user.
    pub(crate) members: BTreeSet<(Id, Id)>,
    /// The same pairs as user and team.
    pub(crate) joined: BTreeSet<(Id, Id)>,
    pub(crate) alloc: Global,
}

impl Model for Units {
    ghost use Rattle.dv_units.specs.Chart.{Chart};

    ghost Value = { Chart };

    ghost use Rattle.dv_units.specs.Index.{chart_of, IsWhole};

    ghost view = { λ s. chart_of s.units.entries s.users.entries s.teams.entries s.members.keys };

    ghost invariant = { λ s. IsWhole (chart_of s.units.entries s.users.entries s.teams.entries s.members.keys) s.joined.keys };
}

impl Units {
    /// The root unit alone.
    pub fn begin(alloc: Global, root: Id) -> Result<Units, AllocError>
        requires { root.0 ≢ 0 }
        ensures { IfOk result (λ units. units ≡ root_alone root) }
    {
        let mut units = BTreeMap::new(alloc);
        lists::put(&mut units, root, root)?;
        Ok(Units {
            units,
            users: BTreeMap::new(alloc),
            teams: BTreeMap::new(alloc),
            members: BTreeSet::new(alloc),
            joined: BTreeSet::new(alloc),
            alloc,
        })
    }

    /// A copy of the chart.
    pub fn copy(&self) -> Result<Units, AllocError>
        ensures { IfOk result (λ units. units ≡ self.now) }
    {
        Ok(Units {
            units: self.units.clone()?,
            users: self.users.clone()?,
            teams: self.teams.clone()?,
            members: lists::copied_pairs(&self.members)?,
            joined: lists::copied_pairs(&self.joined)?,
            alloc: self.alloc,
        })
    }

    /// Whether an id is that of a unit.
    pub(crate) fn is_unit(&self, id: Id) -> bool
        ensures { result ≡ is_unit self.now id }
    {
        self.units.contains_key(&id)
    }

    /// Whether an id is that of a user.
    pub(crate) fn is_user(&self, id: Id) -> bool
        ensures { result ≡ is_user self.now id }
    {
        self.users.contains_key(&id)
    }

    /// Whether an id is that of a further team.
    pub(crate) fn is_team(&self, id: Id) -> bool
        ensures { result ≡ is_team self.now id }
    {
        self.teams.contains_key(&id)
    }

    /// Whether a new unit, user or team can't have an id.
    pub(crate) fn is_taken(&self, id: Id) -> bool
        ensures { result ≡ is_taken self.now id }
    {
        id.0 == 0 || self.is_unit(id) || self.is_user(id) || self.is_team(id)
    }

    /// The unit that a user or a team belongs to; the default team of a unit, which has the unit's id, belongs to the
    /// unit. None where no user or team has the id.
    pub fn unit_of(&self, principal: Id) -> Option<Id>
        ensures unit { result ≡ unit_of self.now principal }
        ensures rules { IsChart self.now }
    {
        if let Some(user) = self.users.get(&principal) {
            return Some(user.unit);
        }
        if let Some(team) = self.teams.get(&principal) {
            return Some(team.unit);
        }
        if self.is_unit(principal) {
            Some(principal)
        } else {
            None
        }
    }

    /// Whether a user may send requests. None where no user has the id.
    pub fn enabled(&self, user: Id) -> Option<bool>
        ensures enabled { result ≡ option_map (λ found. found.enabled) (at self.now.users user) }
    {
        match self.users.get(&user) {
            Some(user) => Some(user.enabled),
            None => None,
        }
    }

    /// Whether a further team is an access team; else it is an owner team. None where no further team has the id.
    pub fn access(&self, team: Id) -> Option<bool>
        ensures { result ≡ option_map (λ found. found.access) (at self.now.teams team) }
    {
        match self.teams.get(&team) {
            Some(team) => Some(team.access),
            None => None,
        }
    }
}
