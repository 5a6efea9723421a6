//! Changes of users. What roles a user has isn't known here, so neither are the rules on them.
ghost use Rattle.std.specs.Prelude.{◌≡◌, Ok, OnOk, OnErr, IfErr};
ghost use Rattle.dv_units.specs.Messages.{adding_user, moving_user, enabling_user};
ghost use Rattle.dv_units.specs.Outcome.{IsFaultOf};

use crate::fault::DirFault;
use crate::lists;
use crate::seats::User;
use crate::units::{MOST_USERS, Units};
use dv_refusal::{Refusal, What};
use dv_value::Id;

impl Units {
    /// Adds a user to a unit. The user is enabled.
    #[tactic(auto, unfolding(crate::specs::Messages::adding_user))]
    pub fn add_user(&mut self, id: Id, unit: Id) -> Result<(), DirFault>
        ensures ok { OnOk result (adding_user self.old id unit ≡ Ok self.new) }
        ensures err { IfErr result (IsFaultOf (adding_user self.old id unit)) }
        ensures kept { OnErr result (self.new ≡ self.old) }
    {
        if self.is_taken(id) {
            return Err(DirFault::Refused(Refusal::DirectoryIdTaken));
        }
        if !self.is_unit(unit) {
            return Err(DirFault::Refused(Refusal::UnknownUnit));
        }
        if self.users.len() >= MOST_USERS {
            return Err(DirFault::Refused(Refusal::Limit { what: What::User }));
        }
        lists::put(
            &mut self.users,
            id,
            User {
                unit,
                enabled: true,
            },
        )?;
        Ok(())
    }

    /// Moves a user to a unit, which may be its own.
    #[tactic(auto, unfolding(crate::specs::Messages::moving_user))]
    pub fn move_user(&mut self, user: Id, unit: Id) -> Result<(), DirFault>
        ensures ok { OnOk result (moving_user self.old user unit ≡ Ok self.new) }
        ensures err { IfErr result (IsFaultOf (moving_user self.old user unit)) }
        ensures kept { OnErr result (self.new ≡ self.old) }
    {
        let Some(found) = self.users.get(&user).copied() else {
            return Err(DirFault::Refused(Refusal::UnknownUser));
        };
        if !self.is_unit(unit) {
            return Err(DirFault::Refused(Refusal::UnknownUnit));
        }
        lists::put(
            &mut self.users,
            user,
            User {
                unit,
                enabled: found.enabled,
            },
        )?;
        Ok(())
    }

    /// Says whether a user may send requests.
    #[tactic(auto, unfolding(crate::specs::Messages::enabling_user))]
    pub fn set_enabled(&mut self, user: Id, enabled: bool) -> Result<(), DirFault>
        ensures ok { OnOk result (enabling_user self.old user enabled ≡ Ok self.new) }
        ensures err { IfErr result (IsFaultOf (enabling_user self.old user enabled)) }
        ensures kept { OnErr result (self.new ≡ self.old) }
    {
        let Some(found) = self.users.get(&user).copied() else {
            return Err(DirFault::Refused(Refusal::UnknownUser));
        };
        lists::put(
            &mut self.users,
            user,
            User {
                unit: found.unit,
                enabled,
            },
        )?;
        Ok(())
    }
}
