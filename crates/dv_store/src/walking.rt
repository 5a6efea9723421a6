//! The cursors of a store, counted.
ghost use Rattle.std.specs.Prelude.{◌≡◌};
ghost use Rattle.dv_store.specs.Cursors.{told_of};
ghost use Rattle.dv_store.specs.World.{GrantsStand};

use crate::cursors::Cursors;
use crate::store::Store;
use dv_value::Id;

/// A walk over a store, which counts its calls.
#[derive(Drop)]
pub struct Walk<'a> {
    store: &'a Store,
    count: u64,
}

impl<'a> Walk<'a> {
    ghost use Rattle.dv_store.specs.Walking.{counted_by, walked_by};

    /// A walk over a store, of which no call was made.
    pub fn new(store: &'a Store) -> Walk<'a>
        ensures told { walked_by result ≡ told_of store.now.present }
        ensures count { counted_by result ≡ 0 }
        ensures stand { GrantsStand store.now.present }
    {
        store.each_grant_stands_on_a_row();
        Walk { store, count: 0 }
    }

    /// The number of calls so far, at most 2^64 - 1.
    pub fn count(&self) -> u64
        ensures { result ≡ counted_by self.now }
    {
        self.count
    }
}

impl<'a> Cursors for Walk<'a> {
    ghost use Rattle.dv_store.specs.Walking.{counted_by, walked_by};

    ghost told = { walked_by };

    ghost count = { counted_by };

    fn owned_after(&mut self, table: u16, owner: Id, after: Option<Id>) -> Option<Id> {
        self.count = self.count.saturating_add(1);
        self.store.owned_after(table, owner, after)
    }

    fn shared_after(&mut self, table: u16, principal: Id, after: Option<Id>) -> Option<(Id, u32)> {
        self.count = self.count.saturating_add(1);
        self.store.shared_after(table, principal, after)
    }

    fn row_after(&mut self, table: u16, after: Option<Id>) -> Option<Id> {
        self.count = self.count.saturating_add(1);
        self.store.row_after(table, after)
    }
}
