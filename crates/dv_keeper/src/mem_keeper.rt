//! A keeper that holds its cells in memory.
ghost use Rattle.std.specs.Prelude.{◌≡◌, ◌-◌, ◌↔◌, false, None, IsTrue, IfOk, OnOk, OnErr};
ghost use Rattle.std.specs.Option.{option_copied};
ghost use Rattle.dv_base.specs.Faults.{raised};
ghost use Rattle.dv_keeper.specs.Cells.{all_changed, no_cells, IsNext};
ghost use Rattle.dv_keeper.specs.Faults.{HasCause, HasFailed};
ghost use Rattle.dv_keeper.specs.Memory.{cells_of, state_of};

use crate::cell::{Bytes, Cell, Change, KeeperFault};
use crate::failing::{is_now, raise};
use crate::keeper::Keeper;
use crate::places::{Places, make_changes, next_cell};
use std::alloc::Global;
use std::collections::BTreeMap;
use std::marker::Model;

/// Cells in memory. Opening notes the path alone, and a crash leaves what is held.
///
/// It fails at the one call of `next_after` or of `apply` that it was made to fail at, and never
/// else. A key that was taken keeps an empty place.
#[derive(Drop)]
pub struct MemKeeper {
    is_open: bool,
    path: Option<Bytes>,
    places: Places,
    failing_next_after: u64,
    failing_apply: u64,
    faults: u64,
}

impl Model for MemKeeper {
    ghost use Rattle.dv_keeper.specs.Memory.{KeeperInMemory};

    ghost Value = { KeeperInMemory };

    ghost view = { λ s. record {
      is_open = s.is_open;
      place = s.path;
      places = s.places.entries;
      failing_next_after = s.failing_next_after;
      failing_apply = s.failing_apply;
      faults = s.faults;
    } };
}

impl MemKeeper {
    /// A keeper that holds nothing, isn't open and never fails.
    pub fn new(alloc: Global) -> Self
        ensures closed { result.is_open ≡ false }
        ensures place { result.place ≡ None }
        ensures cells { cells_of result ≡ no_cells }
        ensures failing_next_after { result.failing_next_after ≡ 0 }
        ensures failing_apply { result.failing_apply ≡ 0 }
        ensures faults { result.faults ≡ 0 }
    {
        MemKeeper::failing(alloc, 0, 0)
    }

    /// A keeper that holds nothing and isn't open. Its call number `next_after` of
    /// [`Keeper::next_after`] fails, and its call number `apply` of [`Keeper::apply`], both
    /// counted from 1. At 0 none does.
    pub fn failing(alloc: Global, next_after: u64, apply: u64) -> Self
        ensures closed { result.is_open ≡ false }
        ensures place { result.place ≡ None }
        ensures cells { cells_of result ≡ no_cells }
        ensures failing_next_after { result.failing_next_after ≡ next_after }
        ensures failing_apply { result.failing_apply ≡ apply }
        ensures faults { result.faults ≡ 0 }
    {
        MemKeeper {
            is_open: false,
            path: None,
            places: BTreeMap::new(alloc),
            failing_next_after: next_after,
            failing_apply: apply,
            faults: 0,
        }
    }
}

impl Keeper for MemKeeper {
    ghost state = { state_of };

    ghost leaves = { λ s cells. cells ≡ cells_of s };

    fn open(&mut self, alloc: Global, path: Option<&str>) -> Result<(), KeeperFault>
        ensures fails { ¬ (HasFailed result) }
        ensures ok { OnOk result (IsTrue self.new.is_open) }
        ensures place { OnOk result (self.new.place ≡ option_copied path.entry) }
        ensures err { OnErr result (self.new ≡ self.old) }
        ensures cells { cells_of self.new ≡ cells_of self.old }
        ensures failing_next_after { self.new.failing_next_after ≡ self.old.failing_next_after }
        ensures failing_apply { self.new.failing_apply ≡ self.old.failing_apply }
        ensures faults { self.new.faults ≡ self.old.faults }
    {
        self.path = match path {
            Some(path) => Some(Bytes::from_slice(alloc, path.as_bytes())?),
            None => None,
        };
        self.is_open = true;
        Ok(())
    }

    fn next_after(
        &mut self,
        alloc: Global,
        sheet: u8,
        key: Option<&[u8]>,
    ) -> Result<Option<Cell>, KeeperFault>
        ensures fails { HasFailed result ↔ (self.old.failing_next_after ≡ 1) }
        ensures next { IfOk result (λ cell.
            IsNext (cells_of self.old) sheet (option_copied key.entry) cell) }
        ensures cells { cells_of self.new ≡ cells_of self.old }
        ensures failing_next_after { self.new.failing_next_after ≡ self.old.failing_next_after - 1 }
        ensures failing_apply { self.new.failing_apply ≡ self.old.failing_apply }
        ensures is_open { self.new.is_open ≡ self.old.is_open }
        ensures place { self.new.place ≡ self.old.place }
        ensures cause { HasCause self.old.faults self.new.faults result }
        ensures fault { HasFailed result → self.new.faults ≡ raised self.old.faults }
    {
        if is_now(&mut self.failing_next_after) {
            return Err(raise(&mut self.faults));
        }
        Ok(next_cell(alloc, &self.places, sheet, key)?)
    }

    fn apply(&mut self, alloc: Global, changes: &[Change]) -> Result<(), KeeperFault>
        ensures fails { HasFailed result ↔ (self.old.failing_apply ≡ 1) }
        ensures ok { OnOk result (cells_of self.new ≡ all_changed changes.now (cells_of self.old)) }
        ensures err { OnErr result (cells_of self.new ≡ cells_of self.old) }
        ensures failing_apply { self.new.failing_apply ≡ self.old.failing_apply - 1 }
        ensures failing_next_after { self.new.failing_next_after ≡ self.old.failing_next_after }
        ensures is_open { self.new.is_open ≡ self.old.is_open }
        ensures place { self.new.place ≡ self.old.place }
        ensures cause { HasCause self.old.faults self.new.faults result }
        ensures fault { HasFailed result → self.new.faults ≡ raised self.old.faults }
    {
        if is_now(&mut self.failing_apply) {
            return Err(raise(&mut self.faults));
        }
        make_changes(alloc, &mut self.places, changes)?;
        Ok(())
    }
}
