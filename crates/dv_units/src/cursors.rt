//! Walks over the chart, entry by entry in ascending order, without memory.
ghost use Rattle.std.specs.Prelude.{◌≡◌};
ghost use Rattle.std.specs.Option.{option_map};
ghost use Rattle.dv_units.specs.Cursors.{next_entry, next_pair, Ascends, PairsAscend};

use crate::lists;
use crate::units::Units;
use dv_value::Id;

impl Units {
    /// The first unit past an id with its parent, or the first of all. The root is its own parent.
    pub fn unit_after(&self, after: Option<Id>) -> Option<(Id, Id)>
        ensures next { result ≡ next_entry after self.now.units }
        ensures ascends { Ascends self.now.units }
    {
        match lists::next_entry(&self.units, after) {
            Some((unit, parent)) => Some((*unit, *parent)),
            None => None,
        }
    }

    /// The first user past an id with its unit and whether it is enabled, or the first of all.
    pub fn user_after(&self, after: Option<Id>) -> Option<(Id, Id, bool)>
        ensures next { result
            ≡ option_map (λ e. (e.0, e.1.unit, e.1.enabled)) (next_entry after self.now.users) }
        ensures ascends { Ascends self.now.users }
    {
        match lists::next_entry(&self.users, after) {
            Some((id, user)) => Some((*id, user.unit, user.enabled)),
            None => None,
        }
    }

    /// The first further team past an id with its unit and whether it is an access team, or the first of all. Default
    /// teams aren't listed.
    pub fn listed_team_after(&self, after: Option<Id>) -> Option<(Id, Id, bool)>
        ensures next { result
            ≡ option_map (λ e. (e.0, e.1.unit, e.1.access)) (next_entry after self.now.teams) }
        ensures ascends { Ascends self.now.teams }
    {
        match lists::next_entry(&self.teams, after) {
            Some((id, team)) => Some((*id, team.unit, team.access)),
            None => None,
        }
    }

    /// The first pair of further team and member past a pair, or the first of all.
    pub fn member_after(&self, after: Option<(Id, Id)>) -> Option<(Id, Id)>
        ensures next { result ≡ next_pair after self.now.members }
        ensures ascends { PairsAscend self.now.members }
    {
        lists::next_pair(&self.members, after)
    }
}
