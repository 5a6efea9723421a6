//! Changes of roles.
ghost use Rattle.std.specs.Prelude.{◌≡◌, Ok, IfOk, OnOk, OnErr, IfErr};
ghost use Rattle.std.specs.Option.{option_map};
ghost use Rattle.dv_units.specs.Chart.{at};
ghost use Rattle.dv_units.specs.Outcome.{IsFaultOf};
ghost use Rattle.dv_roles.specs.Messages.{role_of, adding_role, setting_privileges};

use crate::directory::Directory;
use crate::entries::check_entries;
use crate::role::SecurityRole;
use crate::spreading::spread;
use dv_refusal::{Refusal, What};
use dv_schema::{Definition, Entry, Role};
use dv_units::{DirFault, lists};
use dv_value::{Id, Text};
use std::alloc::{AllocError, Global};

/// The most roles that there may be besides the System Administrator.
const MOST_ROLES: usize = 500;

/// A role with its entries spread out.
fn role_of(
    alloc: Global,
    definition: &Definition,
    direct: bool,
    manage: bool,
    entries: &[Entry],
) -> Result<SecurityRole, AllocError>
    ensures { IfOk result (λ role. role ≡ role_of definition.now direct manage entries.now) }
{
    let entries = spread(alloc, definition, entries)?;
    Ok(SecurityRole {
        direct,
        manage,
        entries,
    })
}

impl Directory {
    /// Adds a role. The definition is the one that the directory was made for.
    #[tactic(auto, unfolding(crate::specs::Messages::adding_role))]
    pub fn add_role(&mut self, definition: &Definition, role: &Role) -> Result<(), DirFault>
        ensures ok { OnOk result (adding_role self.old definition.now role.now ≡ Ok self.new) }
        ensures err { IfErr result (IsFaultOf (adding_role self.old definition.now role.now)) }
        ensures kept { OnErr result (self.new ≡ self.old) }
        ensures owned { self.new.owned ≡ self.old.owned }
    {
        if self.is_role(role.id) {
            return Err(DirFault::Refused(Refusal::DirectoryIdTaken));
        }
        let entries = role.entries.as_slice();
        check_entries(self.alloc, definition, entries)?;
        if self.roles.len() >= MOST_ROLES {
            return Err(DirFault::Refused(Refusal::Limit { what: What::Role }));
        }
        let kept = role_of(self.alloc, definition, role.direct, role.manage, entries)?;
        lists::put(&mut self.roles, role.id, kept)?;
        Ok(())
    }

    /// Whether a role's entries are direct, where there is such a role.
    fn direct(&self, role: Id) -> Option<bool>
        ensures { result ≡ option_map (λ found. found.direct) (at self.now.roles role) }
    {
        match self.roles.get(&role) {
            Some(found) => Some(found.direct),
            None => None,
        }
    }

    /// Gives a role other privileges. Its inheritance stays, and who has it.
    #[tactic(auto, unfolding(crate::specs::Messages::setting_privileges))]
    pub fn set_privileges(
        &mut self,
        definition: &Definition,
        role: Id,
        manage: bool,
        entries: &[Entry],
    ) -> Result<(), DirFault>
        ensures ok { OnOk result
            (setting_privileges self.old definition.now role manage entries.now ≡ Ok self.new) }
        ensures err { IfErr result
            (IsFaultOf (setting_privileges self.old definition.now role manage entries.now)) }
        ensures kept { OnErr result (self.new ≡ self.old) }
        ensures owned { self.new.owned ≡ self.old.owned }
    {
        if role.0 == 0 {
            let why = Text::from_str(self.alloc, "admin")?;
            return Err(DirFault::Refused(Refusal::RoleRule { why }));
        }
        let Some(direct) = self.direct(role) else {
            return Err(DirFault::Refused(Refusal::UnknownRole));
        };
        check_entries(self.alloc, definition, entries)?;
        let kept = role_of(self.alloc, definition, direct, manage, entries)?;
        lists::put(&mut self.roles, role, kept)?;
        Ok(())
    }
}
