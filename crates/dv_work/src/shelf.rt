//! The shelf: its looks, its changes, and its ways back.
ghost use Rattle.std.specs.Prelude.{◌≡◌, ◌≤◌, [], length, IfErr, OnOk, OnErr, IfOk, if◌then◌else◌};
ghost use Rattle.std.specs.Option.{option_copied, option_map};
ghost use Rattle.dv_work.specs.Entries.{Ascends, AreTouched, beyond, first_from, has_key, value_at, with_place, with_value, without_key};
ghost use Rattle.dv_work.specs.History.{back_at, present_alone, with_change, with_present, with_state};

use crate::journal::{Change, undo, write};
use crate::key::Key;
use crate::places::{drop_empty, first_from, value_at};
use crate::touched::{changes_since, touch};
use std::alloc::{AllocError, AllocFailed, Global};
use std::collections::BTreeMap;
use std::marker::Model;
use std::ops::Bound;

/// An ordered map with its earlier states.
///
/// Contracts see it as its present entries, by ascending keys, and the states before them, the oldest first. A mark is
/// the number of the earlier states at its time.
///
/// Each entry takes a place in std's ordered map, and each change since the last `forget` one in a journal, with the
/// value that it replaced. A key that was taken keeps an empty place until `forget`.
#[derive(Drop)]
pub struct Shelf<K: Key, V: Drop> {
    alloc: Global,
    places: BTreeMap<K, Option<V>>,
    journal: Vec<Change<K, V>>,
    kept: usize,
}

impl<K: Key, V: Drop> Model for Shelf<K, V> {
    ghost use Rattle.std.specs.Prelude.{List};
    ghost use Rattle.dv_work.specs.History.{History};

    ghost Value = { History (List (K × V)) };

    ghost use Rattle.dv_work.specs.Journal.{history_of, IsWhole};

    ghost view = { λ s. history_of K.cmp s.places.entries s.journal.items };

    ghost invariant = { λ s. IsWhole K.cmp s.kept s.places.entries s.journal.items };
}

impl<K: Key, V: Drop> Shelf<K, V> {
    /// A shelf with no entries and no earlier states. It takes no memory.
    pub fn new(alloc: Global) -> Shelf<K, V>
        ensures empty { result.present ≡ [] }
        ensures fresh { result.earlier ≡ [] }
    {
        Shelf {
            alloc,
            places: BTreeMap::new(alloc),
            journal: Vec::new(alloc),
            kept: 0,
        }
    }

    /// The value at a key, or `None` where the key isn't there.
    pub fn get(&self, key: &K) -> Option<&V>
        ensures value { option_copied result ≡ value_at K.cmp key.now self.now.present }
        ensures ordered { Ascends K.cmp self.now.present }
    {
        value_at(&self.places, key)
    }

    /// The first entry whose key lies at a bound or beyond it.
    ///
    /// It passes over the keys that were taken since the last `forget`, one by one. So a loop that takes what it finds
    /// goes on from the key that it took, and not from the start again.
    pub fn first_from(&self, start: Bound<K>) -> Option<(&K, &V)>
        ensures entry { option_map (λ e. (e.0.now, e.1.now)) result
            ≡ first_from K.cmp start self.now.present }
        ensures ordered { Ascends K.cmp self.now.present }
    {
        first_from(&self.places, start)
    }

    /// The first entry whose key is greater than `key`, or the first entry of all for `None`. It answers `None` where
    /// no key is greater. It passes over taken keys as [`Shelf::first_from`] does.
    pub fn next_after(&self, key: Option<&K>) -> Option<(&K, &V)>
        ensures entry { option_map (λ e. (e.0.now, e.1.now)) result
            ≡ first_from K.cmp (beyond (option_copied key.entry)) self.now.present }
        ensures ordered { Ascends K.cmp self.now.present }
    {
        match key {
            Some(key) => self.first_from(Bound::Excluded(*key)),
            None => self.first_from(Bound::Unbounded),
        }
    }

    /// Puts a place at a key, whose state before is kept or not. Where memory runs out the place comes back.
    fn change(&mut self, key: K, place: Option<V>, kept: bool) -> Result<(), Option<V>>
        ensures ok { OnOk result (self.new
            ≡ with_change kept self.old (with_place K.cmp key place self.old.present)) }
        ensures err { OnErr result (self.new ≡ self.old) }
        ensures returned { IfErr result (λ e. e ≡ place) }
    {
        match write(&mut self.places, &mut self.journal, key, place, kept) {
            Ok(()) => {
                self.kept += usize::from(kept);
                Ok(())
            }
            Err(AllocFailed { value: (_, place) }) => Err(place),
        }
    }

    /// `put`, whose state before is kept or not.
    fn put_as(&mut self, key: K, value: V, kept: bool) -> Result<(), (K, V, AllocError)>
        ensures ok { OnOk result (self.new
            ≡ with_change kept self.old (with_value K.cmp key value self.old.present)) }
        ensures err { OnErr result (self.new ≡ self.old) }
        ensures returned { IfErr result (λ e. (e.0 ≡ key) × (e.1 ≡ value)) }
    {
        match self.change(key, Some(value), kept) {
            Ok(()) => Ok(()),
            Err(Some(value)) => Err((key, value, AllocError)),
            Err(None) => unreachable!(),
        }
    }

    /// `take`, whose state before is kept or not.
    fn take_as(&mut self, key: &K, kept: bool) -> Result<bool, AllocError>
        ensures ok { IfOk result (λ there. self.new ≡ (if there
            then with_change kept self.old (without_key K.cmp key.now self.old.present) else self.old)) }
        ensures there { IfOk result (λ there. there ≡ has_key K.cmp key.now self.old.present) }
        ensures err { OnErr result (self.new ≡ self.old) }
    {
        if self.get(key).is_none() {
            return Ok(false);
        }
        match self.change(*key, None, kept) {
            Ok(()) => Ok(true),
            Err(_) => Err(AllocError),
        }
    }

    /// Puts a value at a key, in the place of the one that it had. The state before it is kept.
    ///
    /// # Errors
    ///
    /// Where memory runs out, key and value come back.
    pub fn put(&mut self, key: K, value: V) -> Result<(), (K, V, AllocError)>
        ensures ok { OnOk result (self.new
            ≡ with_state self.old (with_value K.cmp key value self.old.present)) }
        ensures err { OnErr result (self.new ≡ self.old) }
        ensures returned { IfErr result (λ e. (e.0 ≡ key) × (e.1 ≡ value)) }
    {
        self.put_as(key, value, true)
    }

    /// Takes a key out, and tells whether it was there. The state before it is kept where it was, and a key that isn't
    /// there adds no state.
    ///
    /// # Errors
    ///
    /// Memory ran out: the journal needs room for the value that is taken.
    pub fn take(&mut self, key: &K) -> Result<bool, AllocError>
        ensures ok { IfOk result (λ there. self.new ≡ (if there
            then with_state self.old (without_key K.cmp key.now self.old.present) else self.old)) }
        ensures there { IfOk result (λ there. there ≡ has_key K.cmp key.now self.old.present) }
        ensures err { OnErr result (self.new ≡ self.old) }
    {
        self.take_as(key, true)
    }

    /// As [`Shelf::put`], in one step with the change before: the state between the two isn't kept, and no mark brings
    /// it back.
    ///
    /// # Errors
    ///
    /// As `put`. What the step did before stays done; `undo_to` with a mark from before the step takes it back.
    pub fn amend_put(&mut self, key: K, value: V) -> Result<(), (K, V, AllocError)>
        ensures ok { OnOk result (self.new
            ≡ with_present self.old (with_value K.cmp key value self.old.present)) }
        ensures err { OnErr result (self.new ≡ self.old) }
        ensures returned { IfErr result (λ e. (e.0 ≡ key) × (e.1 ≡ value)) }
    {
        self.put_as(key, value, false)
    }

    /// As [`Shelf::take`], in one step with the change before.
    ///
    /// # Errors
    ///
    /// As `take`. What the step did before stays done.
    pub fn amend_take(&mut self, key: &K) -> Result<bool, AllocError>
        ensures ok { OnOk result (self.new
            ≡ with_present self.old (without_key K.cmp key.now self.old.present)) }
        ensures there { IfOk result (λ there. there ≡ has_key K.cmp key.now self.old.present) }
        ensures err { OnErr result (self.new ≡ self.old) }
    {
        self.take_as(key, false)
    }

    /// A mark of the present state, to which `undo_to` goes back.
    pub fn mark(&self) -> usize
        ensures { result ≡ length self.now.earlier }
    {
        self.kept
    }

    /// Brings back the state of a mark, and the earlier states that it had. The mark is of a state that wasn't
    /// forgotten or undone since. It takes no memory and no more time than the changes that it undoes.
    pub fn undo_to(&mut self, mark: usize)
        requires { mark ≤ length self.old.earlier }
        ensures { self.new ≡ back_at self.old mark }
    {
        while self.kept > mark {
            let Some(change) = self.journal.pop() else {
                break;
            };
            self.kept -= usize::from(change.kept);
            undo(&mut self.places, change);
        }
    }

    /// Keeps the present state alone: earlier marks can't be used any more. It takes no memory, and gives back what
    /// the earlier states took but the journal's room.
    pub fn forget(&mut self)
        ensures { self.new ≡ present_alone self.old }
    {
        while let Some(change) = self.journal.pop() {
            if let Some(Some(_)) = &change.found {
                drop_empty(&mut self.places, &change.key);
            }
        }
        self.kept = 0;
    }

    /// The keys that were changed since a mark, each once and in order, with what each had at the mark: `None` where it
    /// wasn't there. A key may have the same value again; one that isn't told has what it had.
    ///
    /// It looks at the changes since the mark alone.
    pub fn touched_since(&self, mark: usize) -> Result<BTreeMap<K, Option<&V>>, AllocError>
        ensures told { IfOk result (λ touched.
            AreTouched K.cmp (back_at self.now mark).present self.now.present touched.entries) }
    {
        // `len` says that the keys ascend.
        let _ordered = self.places.len();
        let mut touched = BTreeMap::new(self.alloc);
        for change in changes_since(&self.journal, self.kept, mark) {
            touch(&mut touched, change)?;
        }
        Ok(touched)
    }
}
