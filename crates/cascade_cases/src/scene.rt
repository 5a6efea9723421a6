//! The definition and the store of a case, and what can be asked of them.
ghost use Rattle.std.specs.Prelude.{◌≡◌, ◌&&◌, IfOk};
ghost use Rattle.std.specs.List.{list_all};
ghost use Rattle.dv_schema.specs.Sound.{IsSound};
ghost use Rattle.dv_store.specs.Shapes.{is_owned};
ghost use Rattle.cascade_cases.specs.Scenes.{is_below};

use case_notation::{Fault, bytes_of};
use dv_cascade::{
    Cascading, LookupKey, closure, first_restrict, links_to_clear, parent_of, would_circle,
};
use dv_meta::{DefFault, Definition, read_definition};
use dv_shares::{grant, reparent};
use dv_store::{Row, RowKey, Store, StoreFault};
use dv_value::Id;
use std::alloc::Global;
use std::fs;
use std::marker::Model;

/// A definition, and a store of it.
#[derive(Drop)]
pub struct Scene {
    definition: Definition,
    store: Store,
    // Whether each row's parent has a smaller id than the row. Then no row is above itself.
    descends: bool,
}

impl Model for Scene {
    ghost use Rattle.std.specs.Prelude.{Bool};
    ghost use Rattle.cascade_cases.specs.Scenes.{IsScene};

    ghost Value = { Bool };

    ghost view = { λ s. s.descends };

    ghost invariant = { λ s. IsScene s.definition s.store.present s.descends };
}

// The definition in a file.
fn definition_in(rt: &HostRuntime, name: &str) -> Result<Definition, Fault>
    ensures { IfOk result IsSound }
{
    let text = fs::read_to_string(rt, name)?;
    let bytes = bytes_of(rt.alloc(), text.as_str())?;
    match read_definition(rt.alloc(), bytes.as_slice(), 0) {
        Ok(definition) => Ok(definition),
        Err(DefFault::Bad { .. }) => Err(Fault::Wrong("a definition that is refused")),
        Err(DefFault::OutOfMemory) => Err(Fault::OutOfMemory),
    }
}

// Whether a parent, if there is one, has a smaller id than its child.
#[tactic(auto, unfolding(crate::specs::Scenes::is_below))]
fn is_below(id: Id, parent: Option<RowKey>) -> bool
    ensures { result ≡ is_below id parent }
{
    match parent {
        Some(parent) => parent.id.0 < id.0,
        None => true,
    }
}

// Whether a store that descends, or doesn't, descends with a child of this parent.
fn still_descends(descends: bool, id: Id, parent: Option<RowKey>) -> bool
    ensures { result ≡ (descends && is_below id parent) }
{
    descends && is_below(id, parent)
}

// Whether users and teams own the rows of a set.
fn are_owned(store: &Store, set: &[RowKey]) -> bool
    ensures { result ≡ list_all (λ row. is_owned store.now.present.shape row.table) set.now }
{
    set.iter().all(|row| store.is_owned(row.table))
}

// Whether a change was made; a limit may refuse it.
fn was_made(done: Result<(), StoreFault>) -> Result<bool, Fault> {
    match done {
        Ok(()) => Ok(true),
        Err(StoreFault::OutOfMemory) => Err(Fault::OutOfMemory),
        Err(StoreFault::Limit(_)) => Ok(false),
    }
}

impl Scene {
    /// The definition in a file, and an empty store.
    pub fn read(rt: &HostRuntime, name: &str) -> Result<Scene, Fault> {
        let definition = definition_in(rt, name)?;
        let store = Store::new(rt.alloc(), &definition)?;
        Ok(Scene {
            definition,
            store,
            descends: true,
        })
    }

    /// Its definition.
    pub fn definition(&self) -> &Definition {
        &self.definition
    }

    /// Puts a row.
    pub fn put(&mut self, key: RowKey, row: Row) -> Result<(), Fault> {
        match self.store.put_row(key.table, key.id, row) {
            Ok(()) => {
                let parent = parent_of(&self.store, &self.definition, key);
                self.descends = still_descends(self.descends, key.id, parent);
                Ok(())
            }
            Err(StoreFault::OutOfMemory) => Err(Fault::OutOfMemory),
            Err(StoreFault::Limit(_)) => Err(Fault::Wrong("refused by the store")),
        }
    }

    /// The rows that what is done to a row reaches.
    pub fn closure(
        &self,
        alloc: Global,
        cascading: Cascading,
        target: RowKey,
    ) -> Result<Vec<RowKey>, Fault> {
        Ok(closure(alloc, &self.store, &self.definition, cascading, target)?)
    }

    /// The first relationship that blocks the removal of a set of rows.
    pub fn first_restrict(&self, alloc: Global, set: &[RowKey]) -> Result<Option<u16>, Fault> {
        Ok(first_restrict(alloc, &self.store, &self.definition, set)?)
    }

    /// The lookups that the removal of a set of rows empties.
    pub fn links_to_clear(&self, alloc: Global, set: &[RowKey]) -> Result<Vec<LookupKey>, Fault> {
        Ok(links_to_clear(alloc, &self.store, &self.definition, set)?)
    }

    /// Whether a row would be above itself with this parent.
    pub fn would_circle(&self, row: RowKey, parent: RowKey) -> Result<bool, Fault> {
        if !self.descends {
            return Err(Fault::Wrong("a row whose parent's id isn't smaller"));
        }
        Ok(would_circle(&self.store, &self.definition, row, parent))
    }

    /// The principals that have grants on a row, each with its direct and its inherited rights.
    pub fn show_grants(&self, row: RowKey, out: &mut String) -> Result<(), Fault> {
        let mut after = None;
        for _ in 0..u64::MAX {
            let Some(principal) = self.store.principal_after(row.table, row.id, after) else {
                break;
            };
            let (direct, inherited) = self.store.grant(row.table, row.id, principal);
            write!(out, " #{}:{direct}:{inherited}", principal.0)?;
            after = Some(principal);
        }
        Ok(())
    }

    /// How many principals have grants on a row.
    pub fn count_grants(&self, row: RowKey) -> u64 {
        let mut after = None;
        let mut count: u64 = 0;
        for _ in 0..u64::MAX {
            let Some(principal) = self.store.principal_after(row.table, row.id, after) else {
                break;
            };
            count = count.saturating_add(1);
            after = Some(principal);
        }
        count
    }

    /// Grants rights on a row and on the rows that a share of it reaches, unless a limit refuses it.
    pub fn grant(
        &mut self,
        alloc: Global,
        target: RowKey,
        principal: Id,
        mask: u32,
    ) -> Result<bool, Fault> {
        let set = self.closure(alloc, Cascading::Share, target)?;
        was_made(grant(&mut self.store, set.as_slice(), target, principal, mask))
    }

    /// Lets a row with another parent, and the rows that this reaches, inherit anew, unless a limit refuses it.
    pub fn reparent(&mut self, alloc: Global, moved: RowKey) -> Result<bool, Fault> {
        if !self.descends {
            return Err(Fault::Wrong("a row whose parent's id isn't smaller"));
        }
        let set = closure(
            alloc,
            &self.store,
            &self.definition,
            Cascading::Reparent,
            moved,
        )?;
        if !are_owned(&self.store, set.as_slice()) {
            return Err(Fault::Wrong("a row without an owner"));
        }
        was_made(reparent(
            alloc,
            &mut self.store,
            &self.definition,
            set.as_slice(),
            moved,
        ))
    }
}
