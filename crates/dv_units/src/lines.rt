//! The line of units above a unit, walked without memory.
ghost use Rattle.std.specs.Prelude.{◌≡◌, ◌↔◌, ◌==◌, length, IsTrue};
ghost use Rattle.std.specs.List.{list_any};
ghost use Rattle.dv_units.specs.Tree.{parent_of, line, is_root, is_within, IsWithin};

use crate::units::Units;
use dv_value::Id;
use std::collections::BTreeMap;

/// The unit that a unit stands under.
fn parent_of(units: &BTreeMap<Id, Id>, unit: Id) -> Id
    ensures { result ≡ parent_of units.now.entries unit }
{
    match units.get(&unit) {
        Some(parent) => *parent,
        None => unit,
    }
}

/// Whether a unit is another one, or stands below it over at most as many levels as there are units.
fn is_in_line(units: &BTreeMap<Id, Id>, unit: Id, above: Id) -> bool
    ensures { result ≡ list_any (λ id. above.0 == id.0)
        (line (length units.now.entries) units.now.entries unit) }
{
    let mut at = unit;
    for level in 0..units.len() {
        if above.0 == at.0 {
            return true;
        }
        let parent = parent_of(units, at);
        if parent.0 == at.0 {
            return false;
        }
        at = parent;
    }
    false
}

impl Units {
    /// Whether a unit is the root, which is its own parent.
    pub(crate) fn is_root(&self, unit: Id) -> bool
        ensures { result ≡ is_root self.now unit }
    {
        parent_of(&self.units, unit).0 == unit.0
    }

    /// Whether a unit is another one, or stands below it.
    #[tactic(auto, unfolding(crate::specs::Tree::is_within))]
    pub fn within(&self, unit: Id, above: Id) -> bool
        ensures tests { result ≡ is_within self.now unit above }
        ensures leads { IsTrue result ↔ IsWithin self.now unit above }
    {
        self.is_unit(unit) && is_in_line(&self.units, unit, above)
    }
}
