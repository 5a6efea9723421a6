//! What users and teams hold by their roles.
ghost use Rattle.std.specs.Prelude.{◌≡◌, ◌&&◌};
ghost use Rattle.std.specs.List.{list_any};
ghost use Rattle.dv_units.specs.Chart.{has};
ghost use Rattle.dv_units.specs.Cursors.{is_past};
ghost use Rattle.dv_units.specs.Membership.{IsLeast, IsNextTeam};
ghost use Rattle.dv_roles.specs.Held.{is_entry, allows, any_allows, admin_has, is_owner_team, is_user, team_allows, has_from_team, holds_itself, user_holds, team_holds, manages};

use crate::actions::{has_action, same_action};
use crate::directory::Directory;
use crate::principal::Principal;
use crate::role::RoleEntry;
use dv_schema::Action;
use dv_value::Id;

/// What a role may allow.
#[derive(Clone, Copy, Debug)]
pub(crate) enum Asked {
    /// An action on a table at a depth.
    Privilege(Action, u16, u8),
    /// The management of the directory, which a team's role gives to each of its members too.
    Management,
    /// An action on a table at depth 0, as the member's own, by a direct role.
    Own(Action, u16),
}

/// Whether one of the entries allows an action on a table at a depth.
fn has_entry(entries: &[RoleEntry], action: Action, table: u16, depth: u8) -> bool
    ensures { result ≡ list_any (is_entry action table depth) entries.now }
{
    entries.iter().any(|entry| {
        same_action(entry.action, action) && entry.table == table && entry.depth == depth
    })
}

impl Directory {
    /// Whether a role of an id allows what is asked.
    #[tactic(auto, unfolding(crate::specs::Held::allows))]
    fn allows(&self, asked: Asked, role: Id) -> bool
        ensures { result ≡ allows self.now asked role }
    {
        let Some(found) = self.roles.get(&role) else {
            return false;
        };
        let entries = found.entries.as_slice();
        match asked {
            Asked::Privilege(action, table, depth) => has_entry(entries, action, table, depth),
            Asked::Management => found.manage,
            Asked::Own(action, table) => found.direct && has_entry(entries, action, table, 0),
        }
    }

    /// The first role past an id that a user or a team has, or the first of all.
    fn next_role(&self, principal: Id, after: Option<Id>) -> Option<Id>
        ensures { IsLeast (λ role. has self.now.gifts (principal, role) && is_past after role)
            result }
    {
        self.gifts.role_after(principal, after)
    }

    /// Whether one of the roles of a user or a team allows what is asked.
    fn any_allows(&self, asked: Asked, principal: Id) -> bool
        ensures { result ≡ any_allows self.now asked principal }
    {
        let mut after = None;
        'roles: while let Some(role) = self.next_role(principal, after) {
            if self.allows(asked, role) {
                return true;
            }
            after = Some(role);
        }
        false
    }

    /// Whether the System Administrator has an action of a table at a depth.
    #[tactic(auto, unfolding(crate::specs::Held::admin_has))]
    fn admin_has(&self, action: Action, table: u16, depth: u8) -> bool
        ensures { result ≡ admin_has self.now action table depth }
    {
        if depth != 3 {
            return false;
        }
        match self.user_owned(table) {
            Some(owned) => has_action(owned, action),
            None => false,
        }
    }

    /// Whether an id is that of an owner team.
    fn is_owner_team(&self, id: Id) -> bool
        ensures { result ≡ is_owner_team self.now.chart id }
    {
        match self.principal(id) {
            Some(Principal::OwnerTeam) => true,
            _ => false,
        }
    }

    /// Whether an id is that of a user.
    fn is_user(&self, id: Id) -> bool
        ensures { result ≡ is_user self.now.chart id }
    {
        match self.principal(id) {
            Some(Principal::User) => true,
            _ => false,
        }
    }

    /// Whether an owner team has a role that allows what is asked.
    #[tactic(auto, unfolding(crate::specs::Held::team_allows))]
    fn team_allows(&self, asked: Asked, team: Id) -> bool
        ensures { result ≡ team_allows self.now asked team }
    {
        self.is_owner_team(team) && self.any_allows(asked, team)
    }

    /// The first of a user's teams past an id, or the first of all.
    pub(crate) fn team_after(&self, user: Id, after: Option<Id>) -> Option<Id>
        ensures { IsNextTeam self.now.chart user after result }
    {
        self.units.team_after(user, after)
    }

    /// Whether one of a user's teams has a role that allows what is asked.
    fn has_from_team(&self, asked: Asked, user: Id) -> bool
        ensures { result ≡ has_from_team self.now asked user }
    {
        let mut after = None;
        'teams: while let Some(team) = self.team_after(user, after) {
            if self.team_allows(asked, team) {
                return true;
            }
            after = Some(team);
        }
        false
    }

    /// What a user holds by its own roles or as System Administrator.
    fn holds_itself(&self, action: Action, table: u16, depth: u8, user: Id) -> bool
        ensures { result ≡ holds_itself self.now action table depth user }
    {
        if self.any_allows(Asked::Privilege(action, table, depth), user) {
            return true;
        }
        self.is_admin(user) && self.admin_has(action, table, depth)
    }

    /// What a user holds as itself.
    #[tactic(auto, unfolding(crate::specs::Held::user_holds))]
    pub(crate) fn user_holds(&self, action: Action, table: u16, depth: u8, user: Id) -> bool
        ensures { result ≡ user_holds self.now action table depth user }
    {
        if !self.is_user(user) {
            return false;
        }
        if self.holds_itself(action, table, depth, user) {
            return true;
        }
        depth == 0 && self.has_from_team(Asked::Own(action, table), user)
    }

    /// What a team holds.
    #[tactic(auto, unfolding(crate::specs::Held::team_holds))]
    pub(crate) fn team_holds(&self, action: Action, table: u16, depth: u8, team: Id) -> bool
        ensures { result ≡ team_holds self.now action table depth team }
    {
        self.team_allows(Asked::Privilege(action, table, depth), team)
    }

    /// Whether a user may manage the directory.
    #[tactic(auto, unfolding(crate::specs::Held::manages))]
    pub fn manages(&self, user: Id) -> bool
        ensures { result ≡ manages self.now user }
    {
        if !self.is_user(user) {
            return false;
        }
        if self.is_admin(user) {
            return true;
        }
        if self.any_allows(Asked::Management, user) {
            return true;
        }
        self.has_from_team(Asked::Management, user)
    }
}
