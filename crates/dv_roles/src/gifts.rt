//! Who has which roles: pairs of a user or a team and a role.
ghost use Rattle.std.specs.Prelude.{◌≡◌, ◌&&◌, OnOk, OnErr, IfOk, []};
ghost use Rattle.dv_units.specs.Chart.{has, without_pair};
ghost use Rattle.dv_units.specs.Cursors.{is_past, next_pair, PairsAscend};
ghost use Rattle.dv_units.specs.Membership.{IsLeast};
ghost use Rattle.dv_roles.specs.Gifts.{with_gift, without_gifts_of};

use dv_units::lists;
use dv_value::Id;
use std::alloc::{AllocError, Global};
use std::collections::BTreeSet;
use std::marker::Model;

/// Pairs of a user or a team and a role that it has, in ascending order.
#[derive(Drop)]
pub(crate) struct Gifts {
    pairs: BTreeSet<(Id, Id)>,
    /// The same pairs as role and user or team.
    turned: BTreeSet<(Id, Id)>,
}

impl Model for Gifts {
    ghost use Rattle.std.specs.Prelude.{List};
    ghost use Rattle.dv_value.specs.declared.id.Id as id;

    ghost Value = { List (id.Id × id.Id) };

    ghost use Rattle.dv_roles.specs.Turned.{AreTurned};

    ghost view = { λ s. s.pairs.keys };

    ghost invariant = { λ s. AreTurned s.pairs.keys s.turned.keys };
}

impl Gifts {
    /// No roles of anyone.
    pub(crate) fn new(alloc: Global) -> Gifts
        ensures { result ≡ [] }
    {
        Gifts {
            pairs: BTreeSet::new(alloc),
            turned: BTreeSet::new(alloc),
        }
    }

    /// Whether a user or a team has a role.
    pub(crate) fn has(&self, principal: Id, role: Id) -> bool
        ensures { result ≡ has self.now (principal, role) }
    {
        self.pairs.contains(&(principal, role))
    }

    /// Gives a role. One that is there already changes nothing.
    pub(crate) fn add(&mut self, principal: Id, role: Id) -> Result<(), AllocError>
        ensures ok { OnOk result (self.new ≡ with_gift self.old principal role) }
        ensures err { OnErr result (self.new ≡ self.old) }
    {
        if self.has(principal, role) {
            return Ok(());
        }
        lists::add_pair(&mut self.pairs, &mut self.turned, principal, role)?;
        Ok(())
    }

    /// Takes a role.
    pub(crate) fn remove(&mut self, principal: Id, role: Id)
        ensures { self.new ≡ without_pair self.old (principal, role) }
    {
        lists::take_pair(&mut self.pairs, &mut self.turned, principal, role);
    }

    /// Takes all roles of a user or a team.
    pub(crate) fn remove_all(&mut self, principal: Id)
        ensures { self.new ≡ without_gifts_of self.old principal }
    {
        'roles: while let Some(role) = self.role_after(principal, None) {
            lists::take_pair(&mut self.pairs, &mut self.turned, principal, role);
        }
    }

    /// The least role past an id that a user or a team has, or the least of all.
    pub(crate) fn role_after(&self, principal: Id, after: Option<Id>) -> Option<Id>
        ensures { IsLeast (λ role. has self.now (principal, role) && is_past after role) result }
    {
        lists::second_after(&self.pairs, principal, after)
    }

    /// The least id past another of those that have a role, or the least of all.
    pub(crate) fn holder_after(&self, role: Id, after: Option<Id>) -> Option<Id>
        ensures { IsLeast (λ id. has self.now (id, role) && is_past after id) result }
    {
        lists::second_after(&self.turned, role, after)
    }

    /// The first pair past another, or the first of all.
    pub(crate) fn pair_after(&self, after: Option<(Id, Id)>) -> Option<(Id, Id)>
        ensures next { result ≡ next_pair after self.now }
        ensures ascends { PairsAscend self.now }
    {
        lists::next_pair(&self.pairs, after)
    }

    /// A copy.
    pub(crate) fn copy(&self) -> Result<Gifts, AllocError>
        ensures { IfOk result (λ gifts. gifts ≡ self.now) }
    {
        Ok(Gifts {
            pairs: lists::copied_pairs(&self.pairs)?,
            turned: lists::copied_pairs(&self.turned)?,
        })
    }
}
