//! Walks over roles and over who has them, in ascending order, without memory.
ghost use Rattle.std.specs.Prelude.{◌≡◌};
ghost use Rattle.std.specs.Option.{option_map};
ghost use Rattle.dv_units.specs.Cursors.{next_entry, next_pair, Ascends, PairsAscend};

use crate::directory::Directory;
use crate::role::SecurityRole;
use dv_units::lists;
use dv_value::Id;

impl Directory {
    /// The first role past an id, or the first of all, with its id. The System Administrator isn't listed.
    pub fn role_after(&self, after: Option<Id>) -> Option<(Id, &SecurityRole)>
        ensures next { option_map (λ e. (e.0, e.1.now)) result ≡ next_entry after self.now.roles }
        ensures ascends { Ascends self.now.roles }
    {
        match lists::next_entry(&self.roles, after) {
            Some((id, role)) => Some((*id, role)),
            None => None,
        }
    }

    /// The first pair past another, or the first of all, of a user or a team and a role that it has.
    pub fn gift_after(&self, after: Option<(Id, Id)>) -> Option<(Id, Id)>
        ensures next { result ≡ next_pair after self.now.gifts }
        ensures ascends { PairsAscend self.now.gifts }
    {
        self.gifts.pair_after(after)
    }
}
