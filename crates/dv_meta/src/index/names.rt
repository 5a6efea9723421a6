//! Maps from names to numbers, the first number of a name counting.
ghost use Rattle.std.specs.Prelude.{◌≡◌, ℕ, List, ◌&&◌, false, Some, None, if◌then◌else◌, OnOk};
ghost use Rattle.std.specs.Option.{option_or};
ghost use Rattle.dv_schema.specs.Names.{same_name};
ghost use Rattle.dv_meta.specs.Index.{Adds, AddsLookup, KeepsOthers};
ghost use Rattle.dv_meta.specs.Numbers.{number_in, lookup_in};

use dv_value::Text;
use std::alloc::{AllocError, Global};
use std::collections::BTreeMap;

/// Names with the number that each was given first.
#[derive(Drop)]
pub(crate) struct Numbers {
    map: BTreeMap<Text, usize>,
}

impl Numbers {
    /// No names.
    #[tactic(auto, unfolding(crate::specs::Numbers::number_in))]
    pub(crate) fn new(alloc: Global) -> Numbers
        ensures { (name : List ℕ) → number_in result name ≡ None }
    {
        Numbers {
            map: BTreeMap::new(alloc),
        }
    }

    /// The number of a name.
    #[tactic(auto, unfolding(crate::specs::Numbers::number_in))]
    pub(crate) fn get(&self, name: &Text) -> Option<usize>
        ensures { result ≡ number_in self.now name.now }
    {
        self.map.get(name).copied()
    }

    /// Gives a name a number, unless it has one.
    #[tactic(auto, unfolding(crate::specs::Numbers::number_in))]
    pub(crate) fn add(&mut self, name: Text, number: usize) -> Result<(), AllocError>
        ensures { OnOk result (Adds self.old self.new name number) }
    {
        if self.map.contains_key(&name) {
            return Ok(());
        }
        self.map.insert(name, number)?;
        Ok(())
    }
}

/// Names of tables, each with the numbers of names in it.
#[derive(Drop)]
pub(crate) struct Lookups {
    map: BTreeMap<Text, Numbers>,
}

impl Lookups {
    /// No names.
    #[tactic(auto, unfolding(crate::specs::Numbers::lookup_in))]
    pub(crate) fn new(alloc: Global) -> Lookups
        ensures { (table : List ℕ) (name : List ℕ) → lookup_in result table name ≡ None }
    {
        Lookups {
            map: BTreeMap::new(alloc),
        }
    }

    /// The number of a name in a table.
    #[tactic(auto, unfolding(crate::specs::Numbers::lookup_in))]
    pub(crate) fn get(&self, table: &Text, name: &Text) -> Option<usize>
        ensures { result ≡ lookup_in self.now table.now name.now }
    {
        match self.map.get(table) {
            Some(numbers) => numbers.get(name),
            None => None,
        }
    }

    /// Gives a name in a table a number, unless it has one.
    #[tactic(auto, unfolding(crate::specs::Numbers::lookup_in))]
    pub(crate) fn add(
        &mut self,
        alloc: Global,
        table: Text,
        name: Text,
        number: usize,
    ) -> Result<(), AllocError>
        ensures { OnOk result (AddsLookup self.old self.new table name number) }
    {
        let mut numbers = self.take(alloc, &table);
        numbers.add(name, number)?;
        self.map.insert(table, numbers)?;
        Ok(())
    }

    // Takes a table's numbers out.
    #[tactic(auto, unfolding(crate::specs::Numbers::lookup_in))]
    fn take(&mut self, alloc: Global, table: &Text) -> Numbers
        ensures taken { (q : List ℕ) → number_in result q ≡ lookup_in self.old table.now q }
        ensures others { KeepsOthers self.old self.new table.now }
    {
        match self.map.remove(table) {
            Some(numbers) => numbers,
            None => Numbers::new(alloc),
        }
    }
}
