//! Roles given to users and teams, and taken from them.
ghost use Rattle.std.specs.Prelude.{◌≡◌, ◌&&◌, Ok, OnOk, OnErr, IfErr};
ghost use Rattle.dv_units.specs.Chart.{has};
ghost use Rattle.dv_units.specs.Cursors.{is_past};
ghost use Rattle.dv_units.specs.Membership.{IsLeast};
ghost use Rattle.dv_units.specs.Outcome.{IsFaultOf};
ghost use Rattle.dv_roles.specs.State.{administrator};
ghost use Rattle.dv_roles.specs.Messages.{giving_role, taking_role, is_enabled, has_other_admin};

use crate::directory::{ADMINISTRATOR, Directory};
use crate::principal::Principal;
use dv_refusal::Refusal;
use dv_units::DirFault;
use dv_value::{Id, Text};

impl Directory {
    /// Gives a role to a user or a team. One that it has already changes nothing.
    #[tactic(auto, unfolding(crate::specs::Messages::giving_role))]
    pub fn give_role(&mut self, role: Id, to: Id) -> Result<(), DirFault>
        ensures ok { OnOk result (giving_role self.old role to ≡ Ok self.new) }
        ensures err { IfErr result (IsFaultOf (giving_role self.old role to)) }
        ensures kept { OnErr result (self.new ≡ self.old) }
        ensures owned { self.new.owned ≡ self.old.owned }
    {
        if !self.is_role(role) {
            return Err(DirFault::Refused(Refusal::UnknownRole));
        }
        match self.principal(to) {
            None => return Err(DirFault::Refused(Refusal::BadPrincipal)),
            Some(Principal::AccessTeam) => {
                let why = Text::from_str(self.alloc, "access")?;
                return Err(DirFault::Refused(Refusal::TeamRule { why }));
            }
            Some(Principal::OwnerTeam) => {
                if role.0 == 0 {
                    let why = Text::from_str(self.alloc, "admin")?;
                    return Err(DirFault::Refused(Refusal::RoleRule { why }));
                }
                self.gifts.add(to, role)?;
            }
            Some(Principal::User) => self.gifts.add(to, role)?,
        }
        Ok(())
    }

    /// Whether a user is enabled; false where no user has the id.
    fn is_enabled(&self, user: Id) -> bool
        ensures { result ≡ is_enabled self.now user }
    {
        match self.units.enabled(user) {
            Some(enabled) => enabled,
            None => false,
        }
    }

    /// The first user past an id that has the System Administrator role, or the first of all.
    fn next_admin(&self, after: Option<Id>) -> Option<Id>
        ensures { IsLeast (λ user. has self.now.gifts (user, administrator) && is_past after user)
            result }
    {
        self.gifts.holder_after(ADMINISTRATOR, after)
    }

    /// Whether an enabled user besides this one has the System Administrator role.
    pub(crate) fn has_other_admin(&self, user: Id) -> bool
        ensures { result ≡ has_other_admin self.now user }
    {
        let mut after = None;
        'admins: while let Some(admin) = self.next_admin(after) {
            if admin.0 != user.0 && self.is_enabled(admin) {
                return true;
            }
            after = Some(admin);
        }
        false
    }

    /// Takes a role from a user or a team. One that it doesn't have changes nothing.
    #[tactic(auto, unfolding(crate::specs::Messages::taking_role))]
    pub fn take_role(&mut self, role: Id, from: Id) -> Result<(), DirFault>
        ensures ok { OnOk result (taking_role self.old role from ≡ Ok self.new) }
        ensures err { IfErr result (IsFaultOf (taking_role self.old role from)) }
        ensures kept { OnErr result (self.new ≡ self.old) }
        ensures owned { self.new.owned ≡ self.old.owned }
    {
        if !self.is_role(role) {
            return Err(DirFault::Refused(Refusal::UnknownRole));
        }
        if self.principal(from).is_none() {
            return Err(DirFault::Refused(Refusal::BadPrincipal));
        }
        if role.0 == 0 && !self.has_other_admin(from) {
            return Err(DirFault::Refused(Refusal::LastAdmin));
        }
        self.gifts.remove(from, role);
        Ok(())
    }
}
