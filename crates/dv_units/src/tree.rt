//! Changes of the tree of units.
ghost use Rattle.std.specs.Prelude.{◌≡◌, Ok, OnOk, OnErr, IfErr};
ghost use Rattle.dv_units.specs.Messages.{adding_unit, moving_unit};
ghost use Rattle.dv_units.specs.Outcome.{IsFaultOf};

use crate::fault::DirFault;
use crate::lists;
use crate::units::{MOST_UNITS, Units};
use dv_refusal::{Refusal, What};
use dv_value::{Id, Text};

impl Units {
    /// Adds a unit under a parent.
    #[tactic(auto, unfolding(crate::specs::Messages::adding_unit))]
    pub fn add_unit(&mut self, id: Id, parent: Id) -> Result<(), DirFault>
        ensures ok { OnOk result (adding_unit self.old id parent ≡ Ok self.new) }
        ensures err { IfErr result (IsFaultOf (adding_unit self.old id parent)) }
        ensures kept { OnErr result (self.new ≡ self.old) }
    {
        if self.is_taken(id) {
            return Err(DirFault::Refused(Refusal::DirectoryIdTaken));
        }
        if !self.is_unit(parent) {
            return Err(DirFault::Refused(Refusal::UnknownUnit));
        }
        if self.units.len() >= MOST_UNITS {
            return Err(DirFault::Refused(Refusal::Limit { what: What::Unit }));
        }
        lists::put(&mut self.units, id, parent)?;
        Ok(())
    }

    /// Puts a unit with all below it under another parent.
    #[tactic(auto, unfolding(crate::specs::Messages::moving_unit))]
    pub fn move_unit(&mut self, unit: Id, parent: Id) -> Result<(), DirFault>
        ensures ok { OnOk result (moving_unit self.old unit parent ≡ Ok self.new) }
        ensures err { IfErr result (IsFaultOf (moving_unit self.old unit parent)) }
        ensures kept { OnErr result (self.new ≡ self.old) }
    {
        if !self.is_unit(unit) {
            return Err(DirFault::Refused(Refusal::UnknownUnit));
        }
        if !self.is_unit(parent) {
            return Err(DirFault::Refused(Refusal::UnknownUnit));
        }
        if self.is_root(unit) {
            let why = Text::from_str(self.alloc, "root")?;
            return Err(DirFault::Refused(Refusal::UnitRule { why }));
        }
        if self.within(parent, unit) {
            let why = Text::from_str(self.alloc, "cycle")?;
            return Err(DirFault::Refused(Refusal::UnitRule { why }));
        }
        lists::put(&mut self.units, unit, parent)?;
        Ok(())
    }
}
