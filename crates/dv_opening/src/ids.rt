//! Ids with their first places, and the one loop that finds them in a list.
ghost use Rattle.std.specs.Prelude.{◌≡◌, ◌==◌, ℕ, List, Some, None, map, if◌then◌else◌, IfOk, OnOk};
ghost use Rattle.std.specs.Option.{option_or};
ghost use Rattle.dv_opening.specs.Opening.{id_before};
ghost use Rattle.dv_opening.specs.Seats.{place_in, Places};

use dv_schema::{OpeningTeam, OpeningUnit, OpeningUser, Role};
use dv_value::Id;
use std::alloc::{AllocError, Global};
use std::collections::BTreeMap;

/// Ids with the place that each was given first.
#[derive(Drop)]
pub struct Ids {
    map: BTreeMap<u128, usize>,
}

impl Ids {
    /// No ids.
    #[tactic(auto, unfolding(crate::specs::Seats::place_in))]
    pub fn new(alloc: Global) -> Ids
        ensures { (id : ℕ) → place_in result id ≡ None }
    {
        Ids {
            map: BTreeMap::new(alloc),
        }
    }

    /// The place of an id.
    #[tactic(auto, unfolding(crate::specs::Seats::place_in))]
    pub fn get(&self, id: Id) -> Option<usize>
        ensures { result ≡ place_in self.now id.0 }
    {
        self.map.get(&id.0).copied()
    }

    /// Whether an id has an earlier place.
    pub fn has_before(&self, place: usize, id: Id) -> bool
        ensures { (list : List ℕ) → Places self.now list → result ≡ id_before list place id.0 }
    {
        match self.get(id) {
            Some(k) => k < place,
            None => false,
        }
    }

    /// Gives an id a place, unless it has one.
    #[tactic(auto, unfolding(crate::specs::Seats::place_in))]
    pub fn add(&mut self, id: Id, place: usize) -> Result<(), AllocError>
        ensures { OnOk result ((q : ℕ)
            → place_in self.new q
            ≡ option_or (place_in self.old q) (if q == id.0 then Some place else None)) }
    {
        if self.map.contains_key(&id.0) {
            return Ok(());
        }
        self.map.insert(id.0, place)?;
        Ok(())
    }
}

/// What has an id.
pub trait HasId {
    /// The id as a number.
    ghost id_of: { Self → ℕ };

    /// The id.
    fn id(&self) -> Id
        ensures { result.0 ≡ Self.id_of self.now };
}

impl HasId for Id {
    ghost id_of = { λ id. id.0 };

    fn id(&self) -> Id {
        *self
    }
}

impl HasId for OpeningUnit {
    ghost id_of = { λ unit. unit.id.0 };

    fn id(&self) -> Id {
        self.id
    }
}

impl HasId for OpeningUser {
    ghost id_of = { λ user. user.id.0 };

    fn id(&self) -> Id {
        self.id
    }
}

impl HasId for OpeningTeam {
    ghost id_of = { λ team. team.id.0 };

    fn id(&self) -> Id {
        self.id
    }
}

impl HasId for Role {
    ghost id_of = { λ role. role.id.0 };

    fn id(&self) -> Id {
        self.id
    }
}

/// The first place of each id in a list of what has ids.
pub fn places<T: HasId>(alloc: Global, items: &[T]) -> Result<Ids, AllocError>
    ensures { IfOk result (λ ids. Places ids (map T.id_of items.now)) }
{
    let mut ids = Ids::new(alloc);
    for (k, item) in items.iter().enumerate() {
        ids.add(item.id(), k)?;
    }
    Ok(ids)
}
