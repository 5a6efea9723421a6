//! The rows that were found so far.
ghost use Rattle.std.specs.Prelude.{◌≡◌, ◌+◌, ◌<◌, ◌^◌, IsTrue, IfOk, IfSome, OnOk, [], slice_get};
ghost use Rattle.dv_store.specs.Keys.{row_cmp};
ghost use Rattle.dv_cascade.specs.Chains.{is_among, AreExactly};
ghost use Rattle.dv_cascade.specs.Found.{with_row};

use dv_store::RowKey;
use std::alloc::{AllocError, Global};
use std::collections::BTreeSet;
use std::marker::Model;

/// The rows that were found so far, each once, in the order in which they were found.
#[derive(Drop)]
pub(crate) struct Found {
    order: Vec<RowKey>,
    keys: BTreeSet<RowKey>,
}

impl Model for Found {
    ghost use Rattle.std.specs.Prelude.{List};
    ghost use Rattle.dv_store.specs.declared.keys.RowKey as key;
    ghost use Rattle.dv_cascade.specs.Found.{AreSame};

    ghost Value = { List key.RowKey };

    ghost view = { λ f. f.order.items };

    ghost invariant = { λ f. AreSame f.order.items f.keys };
}

impl Found {
    /// No rows.
    pub(crate) fn new(alloc: Global) -> Found
        ensures { result ≡ [] }
    {
        Found {
            order: Vec::new(alloc),
            keys: BTreeSet::new(alloc),
        }
    }

    /// The row at a place, if so many were found.
    pub(crate) fn at(&self, place: usize) -> Option<RowKey>
        ensures value { result ≡ slice_get self.now place }
        ensures fits { IfSome result (λ _. place + 1 < 2 ^ 64) }
    {
        self.order.get(place).copied()
    }

    /// Whether a row was found.
    pub(crate) fn has(&self, key: RowKey) -> bool
        ensures { result ≡ is_among self.now key }
    {
        self.keys.contains(&key)
    }

    /// Adds a row, unless it was found before.
    pub(crate) fn add(&mut self, key: RowKey) -> Result<(), AllocError>
        ensures { OnOk result (self.new ≡ with_row self.old key) }
    {
        if self.has(key) {
            return Ok(());
        }
        self.order.push(key)?;
        match self.keys.insert(key) {
            Ok(_) => Ok(()),
            Err(fault) => {
                self.order.pop();
                Err(fault.into())
            }
        }
    }

    /// The rows by table and id.
    pub(crate) fn sorted(&self, alloc: Global) -> Result<Vec<RowKey>, AllocError>
        ensures { IfOk result (λ rows. AreExactly row_cmp
            (λ key. IsTrue (is_among self.now key)) rows.items) }
    {
        self.keys.iter().copied().collect(alloc)
    }
}
