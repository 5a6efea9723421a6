//! The cells of a store: one ordered map with its earlier states, read as what it keeps.
ghost use Rattle.std.specs.Prelude.{◌≡◌, ◌≤◌, [], length, OnOk, OnErr};
ghost use Rattle.std.specs.Option.{option_copied};
ghost use Rattle.std.specs.FinMap as map;
ghost use Rattle.dv_work.specs.Entries.{with_place};
ghost use Rattle.dv_store.specs.Keys.{at_counters, key_cmp};
ghost use Rattle.dv_work.specs.History.{back_at, present_alone, with_present, with_state};
ghost use Rattle.dv_store.specs.World.{is_there};
ghost use Rattle.dv_store.specs.Kept.{grant_in, nothing, kept_with, removal_in, row_in, totals_item, totals_of, with_totals, IsOf};

use crate::item::{Item, Totals};
use crate::keys::{GrantKey, Key, Place, RowKey};
use crate::row::Row;
use crate::shape::Shape;
use dv_work::Shelf;
use std::alloc::{AllocError, Global};
use std::marker::Model;

/// The cells, and what is kept of the definition.
#[derive(Drop)]
pub(crate) struct Cells {
    pub(crate) alloc: Global,
    shape: Shape,
    pub(crate) shelf: Shelf<Key, Item>,
}

impl Model for Cells {
    ghost use Rattle.dv_work.specs.History.{History, EachState, seen_by};
    ghost use Rattle.dv_store.specs.World.{is_there};
    ghost use Rattle.dv_store.specs.Kept.{Kept, kept_of, kept_history_code, IsOrdered};

    ghost Value = { History Kept };

    ghost coded = { kept_history_code };

    ghost view = { λ s. seen_by (kept_of s.shape) s.shelf };

    ghost invariant = { λ s. EachState IsOrdered s.shelf };
}

/// Puts an item at a key, or takes the key.
fn put_place(shelf: &mut Shelf<Key, Item>, key: Key, item: Option<Item>) -> Result<(), AllocError>
    ensures ok { OnOk result (shelf.new
        ≡ with_present shelf.old (with_place key_cmp key item shelf.old.present)) }
    ensures err { OnErr result (shelf.new ≡ shelf.old) }
{
    match item {
        Some(item) => match shelf.amend_put(key, item) {
            Ok(()) => Ok(()),
            Err(_) => Err(AllocError),
        },
        None => {
            shelf.amend_take(&key)?;
            Ok(())
        }
    }
}

/// Puts totals, and keeps the state before.
fn put_totals(shelf: &mut Shelf<Key, Item>, totals: Totals) -> Result<(), AllocError>
    ensures ok { OnOk result (shelf.new ≡ with_state shelf.old
        (with_place key_cmp at_counters (totals_item totals) shelf.old.present)) }
    ensures err { OnErr result (shelf.new ≡ shelf.old) }
{
    match shelf.put(Key::At(Place::Counters), Item::Totals(totals)) {
        Ok(()) => Ok(()),
        Err(_) => Err(AllocError),
    }
}

/// The row in a cell.
fn row_in(item: Option<&Item>) -> Option<&Row>
    ensures { option_copied result ≡ row_in (option_copied item.entry) }
{
    match item {
        Some(Item::Row(row)) => Some(row),
        _ => None,
    }
}

/// The rights in a cell.
fn grant_in(item: Option<&Item>) -> Option<(u32, u32)>
    ensures { result ≡ grant_in (option_copied item.entry) }
{
    match item {
        Some(Item::Grant(direct, inherited)) => Some((*direct, *inherited)),
        _ => None,
    }
}

/// The version in the cell of a removal.
fn removal_in(item: Option<&Item>) -> Option<u64>
    ensures { result ≡ removal_in (option_copied item.entry) }
{
    match item {
        Some(Item::Removal(version)) => Some(*version),
        _ => None,
    }
}

impl Cells {
    /// No cells.
    pub fn new(alloc: Global, shape: Shape) -> Cells
        ensures present { result.present ≡ nothing shape }
        ensures earlier { result.earlier ≡ [] }
    {
        Cells {
            alloc,
            shape,
            shelf: Shelf::new(alloc),
        }
    }

    /// What is kept of the definition.
    pub fn shape(&self) -> &Shape
        ensures { result.now ≡ self.now.present.world.shape }
    {
        &self.shape
    }

    /// The row at a place.
    pub fn row(&self, key: RowKey) -> Option<&Row>
        ensures { option_copied result ≡ map.get self.now.present.world.rows key }
    {
        row_in(self.shelf.get(&Key::At(Place::Row(key))))
    }

    /// Whether a row is there.
    pub fn has_row(&self, key: RowKey) -> bool
        ensures { result ≡ is_there self.now.present.world.rows key }
    {
        self.row(key).is_some()
    }

    /// The direct and inherited rights of a grant.
    pub fn grant(&self, key: GrantKey) -> Option<(u32, u32)>
        ensures { result ≡ map.get self.now.present.world.grants key }
    {
        grant_in(self.shelf.get(&Key::At(Place::Grant(key))))
    }

    /// The version at which a row was removed.
    pub fn removal(&self, key: RowKey) -> Option<u64>
        ensures { result ≡ map.get self.now.present.world.removals key }
    {
        removal_in(self.shelf.get(&Key::At(Place::Removal(key))))
    }

    /// Whether there is a removal.
    pub fn has_removal(&self, key: RowKey) -> bool
        ensures { result ≡ map.contains_key self.now.present.world.removals key }
    {
        self.removal(key).is_some()
    }

    /// Whether there is a grant.
    pub fn has_grant(&self, key: GrantKey) -> bool
        ensures { result ≡ map.contains_key self.now.present.world.grants key }
    {
        self.grant(key).is_some()
    }

    /// The counters and the counts.
    pub fn totals(&self) -> Totals
        ensures { result ≡ totals_of self.now.present }
    {
        match self.shelf.get(&Key::At(Place::Counters)) {
            Some(Item::Totals(totals)) => *totals,
            _ => Totals {
                version: 0,
                last_id: 0,
                floor: 0,
                rows: 0,
                grants: 0,
            },
        }
    }

    /// Begins a change: puts the totals, and keeps the state before.
    pub fn begin(&mut self, totals: Totals) -> Result<(), AllocError>
        ensures ok { OnOk result (self.new
            ≡ with_state self.old (with_totals self.old.present totals)) }
        ensures err { OnErr result (self.new ≡ self.old) }
    {
        put_totals(&mut self.shelf, totals)
    }

    /// Begins a change of what isn't counted: keeps the state before.
    pub fn keep(&mut self) -> Result<(), AllocError>
        ensures ok { OnOk result (self.new ≡ with_state self.old self.old.present) }
        ensures err { OnErr result (self.new ≡ self.old) }
    {
        self.begin(self.totals())
    }

    /// Goes on with a change: puts an item in a cell, or empties it.
    pub fn amend(&mut self, key: Key, item: Option<Item>) -> Result<(), AllocError>
        requires { IsOf key item }
        ensures ok { OnOk result (self.new
            ≡ with_present self.old (kept_with self.old.present key item)) }
        ensures err { OnErr result (self.new ≡ self.old) }
    {
        put_place(&mut self.shelf, key, item)
    }

    /// Puts the totals, in the same step.
    pub fn set_totals(&mut self, totals: Totals) -> Result<(), AllocError>
        ensures ok { OnOk result (self.new
            ≡ with_present self.old (with_totals self.old.present totals)) }
        ensures err { OnErr result (self.new ≡ self.old) }
    {
        self.amend(Key::At(Place::Counters), Some(Item::Totals(totals)))
    }

    /// A mark of the present state.
    pub fn mark(&self) -> usize
        ensures { result ≡ length self.now.earlier }
    {
        self.shelf.mark()
    }

    /// Brings back the state of a mark.
    pub fn undo_to(&mut self, mark: usize)
        requires { mark ≤ length self.old.earlier }
        ensures { self.new ≡ back_at self.old mark }
    {
        self.shelf.undo_to(mark);
    }

    /// Keeps the present state alone.
    pub fn forget(&mut self)
        ensures { self.new ≡ present_alone self.old }
    {
        self.shelf.forget();
    }
}
