//! The teams of a user, one after the other, without memory.
ghost use Rattle.std.specs.Prelude.{◌≡◌, Bool, ◌&&◌, ◌||◌};
ghost use Rattle.dv_units.specs.Cursors.{is_past};
ghost use Rattle.dv_units.specs.Membership.{IsLeast, IsNextTeam, is_default_team};

use crate::lists::second_past;
use crate::units::Units;
use dv_value::Id;

/// The lesser of two ids that may be missing.
fn lesser(a: Option<Id>, b: Option<Id>) -> Option<Id>
    ensures { (p q : Id → Bool) → IsLeast p a → IsLeast q b → IsLeast (λ id. p id || q id) result }
{
    match (a, b) {
        (Some(x), Some(y)) => Some(if x.0 <= y.0 { x } else { y }),
        (Some(x), None) => Some(x),
        (None, b) => b,
    }
}

/// Whether an id is past another, or past none.
fn is_past(after: Option<Id>, id: Id) -> bool
    ensures { result ≡ is_past after id }
{
    match after {
        Some(after) => after.0 < id.0,
        None => true,
    }
}

impl Units {
    /// The default team of a user where it is past an id.
    fn default_past(&self, user: Id, after: Option<Id>) -> Option<Id>
        ensures { IsLeast (λ team. is_default_team self.now user team && is_past after team) result }
    {
        match self.users.get(&user) {
            Some(found) => {
                if is_past(after, found.unit) {
                    Some(found.unit)
                } else {
                    None
                }
            }
            None => None,
        }
    }

    /// The first of a user's teams past an id, or the first of all: the default team of its unit, and the further teams
    /// that it is a member of.
    pub fn team_after(&self, user: Id, after: Option<Id>) -> Option<Id>
        ensures { IsNextTeam self.now user after result }
    {
        let from = after.unwrap_or(Id(0));
        let listed = second_past(&self.joined, user, from);
        lesser(self.default_past(user, after), listed)
    }
}
