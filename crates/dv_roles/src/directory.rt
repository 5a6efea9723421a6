//! The directory, how it starts, and what is asked of single ids in it.
ghost use Rattle.std.specs.Prelude.{◌≡◌, ◌≢◌, Ok, IfOk, IfErr, slice_get};
ghost use Rattle.dv_units.specs.Chart.{is_unit};
ghost use Rattle.dv_units.specs.Outcome.{IsFaultOf};
ghost use Rattle.dv_roles.specs.State.{owned_of, is_role, is_admin, principal_of};
ghost use Rattle.dv_roles.specs.Messages.{starting};

use crate::gifts::Gifts;
use crate::principal::Principal;
use crate::role::SecurityRole;
use dv_schema::{Definition, Table};
use dv_units::{DirFault, Units};
use dv_value::Id;
use sqlite_items::Items;
use std::alloc::{AllocError, Global};
use std::collections::BTreeMap;
use std::marker::Model;

/// The id of the System Administrator role.
pub(crate) const ADMINISTRATOR: Id = Id(0);

/// The organisation chart, security roles, and who has them.
#[derive(Drop)]
pub struct Directory {
    pub(crate) units: Units,
    /// For each table whether users own its rows.
    pub(crate) owned: Items<bool>,
    /// The roles besides the System Administrator.
    pub(crate) roles: BTreeMap<Id, SecurityRole>,
    pub(crate) gifts: Gifts,
    pub(crate) alloc: Global,
}

impl Model for Directory {
    ghost use Rattle.dv_roles.specs.State.{State};

    ghost Value = { State };

    ghost view = { λ s. record { chart = s.units; owned = s.owned; roles = s.roles.entries; gifts = s.gifts } };
}

/// For each table whether users own its rows.
fn owned_of(alloc: Global, definition: &Definition) -> Result<Items<bool>, AllocError>
    ensures { IfOk result (λ owned. owned ≡ owned_of definition.now) }
{
    let tables = definition.tables();
    let mut owned = Items::new(alloc);
    for table in tables {
        owned.push(table.user_owned)?;
    }
    Ok(owned)
}

impl Directory {
    ghost use Rattle.std.specs.Borrow.{sem};
    ghost use Rattle.dv_roles.specs.Lending.{LendsChart};

    /// The root unit and one user in it, who has the System Administrator role.
    #[tactic(auto, unfolding(crate::specs::Messages::starting))]
    pub fn start(
        alloc: Global,
        definition: &Definition,
        root: Id,
        admin: Id,
    ) -> Result<Directory, DirFault>
        requires { root.0 ≢ 0 }
        ensures ok { IfOk result (λ directory. starting definition.now root admin ≡ Ok directory) }
        ensures err { IfErr result (IsFaultOf (starting definition.now root admin)) }
    {
        let mut units = Units::begin(alloc, root)?;
        units.add_user(admin, root)?;
        let owned = owned_of(alloc, definition)?;
        let mut gifts = Gifts::new(alloc);
        gifts.add(admin, ADMINISTRATOR)?;
        Ok(Directory {
            units,
            owned,
            roles: BTreeMap::new(alloc),
            gifts,
            alloc,
        })
    }

    /// The organisation chart.
    pub fn units(&self) -> &Units
        ensures { result.now ≡ self.now.chart }
    {
        &self.units
    }

    /// The organisation chart, to be changed. What is done there to users and teams leaves their roles as they are.
    pub fn units_mut(&mut self) -> &mut Units
        ensures* writes_back { sem 𝓛 (LendsChart self.entry result) }
        ensures units { result.now ≡ self.old.chart }
    {
        &mut self.units
    }

    /// Whether users own the rows of a table. None where no table has the number.
    pub fn user_owned(&self, table: u16) -> Option<bool>
        ensures { result ≡ slice_get self.now.owned table }
    {
        self.owned.get(table as usize).copied()
    }

    /// Whether an id is that of a unit.
    pub(crate) fn is_unit(&self, id: Id) -> bool
        ensures { result ≡ is_unit self.now.chart id }
    {
        self.units.within(id, id)
    }

    /// Whether there is a role of an id.
    pub(crate) fn is_role(&self, role: Id) -> bool
        ensures { result ≡ is_role self.now role }
    {
        role.0 == 0 || self.roles.contains_key(&role)
    }

    /// Whether a user has the System Administrator role.
    pub(crate) fn is_admin(&self, user: Id) -> bool
        ensures { result ≡ is_admin self.now user }
    {
        self.gifts.has(user, ADMINISTRATOR)
    }

    /// Whom an id names.
    #[tactic(auto, unfolding(crate::specs::State::principal_of))]
    pub(crate) fn principal(&self, id: Id) -> Option<Principal>
        ensures { result ≡ principal_of self.now.chart id }
    {
        if self.units.enabled(id).is_some() {
            return Some(Principal::User);
        }
        match self.units.access(id) {
            Some(true) => Some(Principal::AccessTeam),
            Some(false) => Some(Principal::OwnerTeam),
            None => {
                if self.is_unit(id) {
                    Some(Principal::OwnerTeam)
                } else {
                    None
                }
            }
        }
    }
}
