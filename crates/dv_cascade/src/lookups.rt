//! The lookups that were found so far.
ghost use Rattle.std.specs.Prelude.{◌≡◌, ◌||◌, IsTrue, IfOk, OnOk, []};
ghost use Rattle.dv_cascade.specs.Chains.{AreExactly};
ghost use Rattle.dv_cascade.specs.Removal.{lookup_cmp};
ghost use Rattle.dv_cascade.specs.Cleared.{has_lookup, is_lookup};

use crate::lookup::LookupKey;
use std::alloc::{AllocError, Global};
use std::collections::BTreeSet;
use std::marker::Model;

/// The lookups that were found so far, each once.
#[derive(Drop)]
pub(crate) struct Lookups {
    keys: BTreeSet<LookupKey>,
}

impl Model for Lookups {
    ghost use Rattle.std.specs.Prelude.{List};
    ghost use Rattle.dv_cascade.specs.declared.lookup.LookupKey as key;

    ghost Value = { List key.LookupKey };

    ghost view = { λ l. l.keys.keys };
}

impl Lookups {
    /// No lookups.
    pub(crate) fn new(alloc: Global) -> Lookups
        ensures { result ≡ [] }
    {
        Lookups {
            keys: BTreeSet::new(alloc),
        }
    }

    /// Adds a lookup, unless it was found before.
    pub(crate) fn add(&mut self, key: LookupKey) -> Result<(), AllocError>
        ensures { OnOk result ((other : LookupKey) → has_lookup self.new other
            ≡ (is_lookup key other || has_lookup self.old other)) }
    {
        self.keys.insert(key)?;
        Ok(())
    }

    /// The lookups by table, id and column.
    pub(crate) fn sorted(&self, alloc: Global) -> Result<Vec<LookupKey>, AllocError>
        ensures { IfOk result (λ lookups. AreExactly lookup_cmp
            (λ key. IsTrue (has_lookup self.now key)) lookups.items) }
    {
        self.keys.iter().copied().collect(alloc)
    }
}
