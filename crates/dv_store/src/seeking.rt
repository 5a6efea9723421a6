//! The next cell of a kind, which takes no memory.
ghost use Rattle.std.specs.Prelude.{◌≡◌, IsSome, true};
ghost use Rattle.std.specs.Option.{option_map};
ghost use Rattle.std.specs.FinMap as map;
ghost use Rattle.std.specs.FinSet as set;
ghost use Rattle.dv_store.specs.Keys.{at_grant, at_removal, at_row, grant_key, in_list, row_key};
ghost use Rattle.dv_store.specs.Cursors.{IsNext, IsNextDirty, IsNextPlace};
ghost use Rattle.dv_store.specs.Seeking.{from_id, from_dirty, from_removal, row_of, grant_of, removal_of, entry_of, dirty_of, any_removal_of};

use crate::cells::Cells;
use crate::keys::{DirtyKey, Entry, GrantKey, Key, Listing, Place, RowKey};
use dv_value::Id;
use std::ops::Bound;

/// Where the rows of a table begin past an id.
fn from_row(table: u16, after: Option<Id>) -> Bound<Key>
    ensures { result ≡ from_id (λ id. at_row (row_key table id)) after }
{
    match after {
        Some(id) => Bound::Excluded(Key::At(Place::Row(RowKey { table, id }))),
        None => Bound::Included(Key::At(Place::Row(RowKey { table, id: Id(0) }))),
    }
}

/// The id of a row of a table.
fn row_of(key: &Key, table: u16) -> Option<Id>
    ensures { result ≡ row_of table key.now }
{
    match key {
        Key::At(Place::Row(key)) if key.table == table => Some(key.id),
        _ => None,
    }
}

/// Where the removals of a table begin past an id.
fn from_removal(table: u16, after: Option<Id>) -> Bound<Key>
    ensures { result ≡ from_id (λ id. at_removal (row_key table id)) after }
{
    match after {
        Some(id) => Bound::Excluded(Key::At(Place::Removal(RowKey { table, id }))),
        None => Bound::Included(Key::At(Place::Removal(RowKey { table, id: Id(0) }))),
    }
}

/// The id of a removal of a table.
fn removal_of(key: &Key, table: u16) -> Option<Id>
    ensures { result ≡ removal_of table key.now }
{
    match key {
        Key::At(Place::Removal(key)) if key.table == table => Some(key.id),
        _ => None,
    }
}

/// Where the grants on a row begin past a principal.
fn from_grant(row: RowKey, after: Option<Id>) -> Bound<Key>
    ensures { result ≡ from_id (λ id. at_grant (record { row = row; principal = id })) after }
{
    match after {
        Some(principal) => Bound::Excluded(Key::At(Place::Grant(GrantKey { row, principal }))),
        None => Bound::Included(Key::At(Place::Grant(GrantKey {
            row,
            principal: Id(0),
        }))),
    }
}

/// The principal of a grant on a row.
fn grant_of(key: &Key, row: RowKey) -> Option<Id>
    ensures { result ≡ grant_of row key.now }
{
    match key {
        Key::At(Place::Grant(key)) if key.row == row => Some(key.principal),
        _ => None,
    }
}

/// Where a list begins past an id.
fn from_entry(list: Listing, after: Option<Id>) -> Bound<Key>
    ensures { result ≡ from_id (λ id. in_list list id) after }
{
    match after {
        Some(id) => Bound::Excluded(Key::In(Entry { list, id })),
        None => Bound::Included(Key::In(Entry { list, id: Id(0) })),
    }
}

/// The id of an entry of a list.
fn entry_of(key: &Key, list: Listing) -> Option<Id>
    ensures { result ≡ entry_of list key.now }
{
    match key {
        Key::In(key) if key.list == list => Some(key.id),
        _ => None,
    }
}

/// Where the dirty rollups begin past one.
fn from_dirty(after: Option<DirtyKey>) -> Bound<Key>
    ensures { result ≡ from_dirty after }
{
    match after {
        Some(key) => Bound::Excluded(Key::At(Place::Dirty(key))),
        None => {
            let row = RowKey {
                table: 0,
                id: Id(0),
            };
            Bound::Included(Key::At(Place::Dirty(DirtyKey { row, column: 0 })))
        }
    }
}

/// A dirty rollup.
fn dirty_of(key: &Key) -> Option<DirtyKey>
    ensures { result ≡ dirty_of key.now }
{
    match key {
        Key::At(Place::Dirty(key)) => Some(*key),
        _ => None,
    }
}

/// Where the removals of all tables begin past one.
fn from_any_removal(after: Option<RowKey>) -> Bound<Key>
    ensures { result ≡ from_removal after }
{
    match after {
        Some(key) => Bound::Excluded(Key::At(Place::Removal(key))),
        None => Bound::Included(Key::At(Place::Removal(RowKey {
            table: 0,
            id: Id(0),
        }))),
    }
}

/// A removal.
fn any_removal_of(key: &Key) -> Option<RowKey>
    ensures { result ≡ any_removal_of key.now }
{
    match key {
        Key::At(Place::Removal(key)) => Some(*key),
        _ => None,
    }
}

impl Cells {
    /// The first row of a table past an id.
    pub fn next_row(&self, table: u16, after: Option<Id>) -> Option<Id>
        ensures { IsNext (λ id. IsSome (map.get self.now.present.world.rows (row_key table id)))
            after result }
    {
        match self.shelf.first_from(from_row(table, after)) {
            Some((key, _)) => row_of(key, table),
            None => None,
        }
    }

    /// The first removal of a table past an id.
    pub fn next_removal(&self, table: u16, after: Option<Id>) -> Option<Id>
        ensures { IsNext
            (λ id. IsSome (map.get self.now.present.world.removals (row_key table id)))
            after result }
    {
        match self.shelf.first_from(from_removal(table, after)) {
            Some((key, _)) => removal_of(key, table),
            None => None,
        }
    }

    /// The first principal past another with a grant on a row.
    pub fn next_grant(&self, row: RowKey, after: Option<Id>) -> Option<Id>
        ensures { IsNext (λ id. IsSome (map.get self.now.present.world.grants
            (record { row = row; principal = id }))) after result }
    {
        match self.shelf.first_from(from_grant(row, after)) {
            Some((key, _)) => grant_of(key, row),
            None => None,
        }
    }

    /// The first row of a list past an id.
    pub fn next_entry(&self, list: Listing, after: Option<Id>) -> Option<Id>
        ensures { IsNext
            (λ id. map.contains_key self.now.present.listed
            (record { list = list; id = id }) ≡ true) after result }
    {
        match self.shelf.first_from(from_entry(list, after)) {
            Some((key, _)) => entry_of(key, list),
            None => None,
        }
    }

    /// The first dirty rollup past another.
    pub fn next_dirty(&self, after: Option<DirtyKey>) -> Option<DirtyKey>
        ensures { IsNextDirty self.now.present.world.dirty after result }
    {
        match self.shelf.first_from(from_dirty(after)) {
            Some((key, _)) => dirty_of(key),
            None => None,
        }
    }

    /// The first removal of any table past another.
    pub fn next_of_removals(&self, after: Option<RowKey>) -> Option<RowKey>
        ensures { IsNextPlace self.now.present.world.removals after result }
    {
        match self.shelf.first_from(from_any_removal(after)) {
            Some((key, _)) => any_removal_of(key),
            None => None,
        }
    }
}
