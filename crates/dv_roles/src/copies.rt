//! A copy of the directory.
ghost use Rattle.std.specs.Prelude.{◌≡◌, IfOk};

use crate::directory::Directory;
use crate::role::SecurityRole;
use dv_units::lists;
use dv_value::Id;
use sqlite_items::Items;
use std::alloc::{AllocError, Global};
use std::collections::BTreeMap;

/// A copy of a list of flags.
fn copied_flags(alloc: Global, flags: &[bool]) -> Result<Items<bool>, AllocError>
    ensures { IfOk result (λ copy. copy ≡ flags.now) }
{
    Items::from_slice(alloc, flags)
}

impl SecurityRole {
    /// A copy of the role.
    pub(crate) fn copy(&self, alloc: Global) -> Result<SecurityRole, AllocError>
        ensures { IfOk result (λ role. role ≡ self.now) }
    {
        let entries = Items::from_slice(alloc, self.entries.as_slice())?;
        Ok(SecurityRole {
            direct: self.direct,
            manage: self.manage,
            entries,
        })
    }
}

impl Directory {
    /// A copy of the roles.
    fn copied_roles(&self) -> Result<BTreeMap<Id, SecurityRole>, AllocError>
        ensures { IfOk result (λ copy. copy.entries ≡ self.now.roles) }
    {
        let mut copy = BTreeMap::new(self.alloc);
        let mut after = None;
        'roles: while let Some((id, role)) = self.role_after(after) {
            let role = role.copy(self.alloc)?;
            lists::put(&mut copy, id, role)?;
            after = Some(id);
        }
        Ok(copy)
    }

    /// A copy of the directory.
    pub fn copy(&self) -> Result<Directory, AllocError>
        ensures { IfOk result (λ directory. directory ≡ self.now) }
    {
        let units = self.units.copy()?;
        let owned = copied_flags(self.alloc, self.owned.as_slice())?;
        let roles = self.copied_roles()?;
        let gifts = self.gifts.copy()?;
        Ok(Directory {
            units,
            owned,
            roles,
            gifts,
            alloc: self.alloc,
        })
    }
}
