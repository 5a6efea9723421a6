//! Changes of users that touch their roles.
ghost use Rattle.std.specs.Prelude.{◌≡◌, ◌==◌, Ok, OnOk, OnErr, IfErr, false};
ghost use Rattle.std.specs.Option.{option_map_or};
ghost use Rattle.dv_units.specs.Membership.{unit_of};
ghost use Rattle.dv_units.specs.Outcome.{IsFaultOf};
ghost use Rattle.dv_roles.specs.Messages.{moving, enabling};

use crate::directory::Directory;
use dv_refusal::Refusal;
use dv_units::DirFault;
use dv_value::Id;

impl Directory {
    /// Whether a user or a team belongs to a unit.
    fn is_of_unit(&self, principal: Id, unit: Id) -> bool
        ensures { result ≡ option_map_or (λ own. own.0 == unit.0)
            (unit_of self.now.chart principal) false }
    {
        match self.units.unit_of(principal) {
            Some(own) => own.0 == unit.0,
            None => false,
        }
    }

    /// Moves a user to another unit and takes all its roles. Into its own unit nothing changes.
    #[tactic(auto, unfolding(crate::specs::Messages::moving, dv_units::specs::Messages::moving_user))]
    pub fn move_user(&mut self, user: Id, unit: Id) -> Result<(), DirFault>
        ensures ok { OnOk result (moving self.old user unit ≡ Ok self.new) }
        ensures err { IfErr result (IsFaultOf (moving self.old user unit)) }
        ensures kept { OnErr result (self.new ≡ self.old) }
        ensures owned { self.new.owned ≡ self.old.owned }
    {
        if self.units.enabled(user).is_none() {
            return Err(DirFault::Refused(Refusal::UnknownUser));
        }
        if !self.is_unit(unit) {
            return Err(DirFault::Refused(Refusal::UnknownUnit));
        }
        if self.is_of_unit(user, unit) {
            return Ok(());
        }
        if !self.has_other_admin(user) {
            return Err(DirFault::Refused(Refusal::LastAdmin));
        }
        self.units.move_user(user, unit)?;
        self.gifts.remove_all(user);
        Ok(())
    }

    /// Says whether a user may send requests.
    #[tactic(auto, unfolding(crate::specs::Messages::enabling, dv_units::specs::Messages::enabling_user))]
    pub fn set_enabled(&mut self, user: Id, enabled: bool) -> Result<(), DirFault>
        ensures ok { OnOk result (enabling self.old user enabled ≡ Ok self.new) }
        ensures err { IfErr result (IsFaultOf (enabling self.old user enabled)) }
        ensures kept { OnErr result (self.new ≡ self.old) }
        ensures owned { self.new.owned ≡ self.old.owned }
    {
        if self.units.enabled(user).is_none() {
            return Err(DirFault::Refused(Refusal::UnknownUser));
        }
        if !enabled && !self.has_other_admin(user) {
            return Err(DirFault::Refused(Refusal::LastAdmin));
        }
        self.units.set_enabled(user, enabled)?;
        Ok(())
    }
}
