//! The store: its world, the changes of it, and the ways back.
ghost use Rattle.std.specs.Prelude.{◌≡◌, ◌≤◌, ◌+◌, ◌-◌, ◌^◌, [], length, true, IsSome, OnOk, OnErr, IfOk, IfErr, nat_lt};
ghost use Rattle.std.specs.Option.{option_copied};
ghost use Rattle.dv_work.specs.History.{back_at, present_alone, with_state};
ghost use Rattle.dv_store.specs.Keys.{grant_key, row_key};
ghost use Rattle.dv_store.specs.Shapes.{is_owned};
ghost use Rattle.dv_store.specs.World.{bumped, empty, fault_at, floor_raised, grant_at, grant_set, grant_total, id_drawn, is_there, most_grants, most_rows, row_at, row_put, row_removed, row_total, GrantsStand};
ghost use Rattle.dv_store.specs.Rolled.{rolled};
ghost use Rattle.dv_store.specs.Changes.{AreChanges};

use crate::cells::Cells;
use crate::changes::changes_since;
use crate::fault::StoreFault;
use crate::keys::{GrantKey, Place, RowKey};
use crate::numbers::Numbers;
use crate::rolling::Calculated;
use crate::row::Row;
use crate::shape::shape_of;
use crate::{granting, numbers, putting, raising, removing, rolling};
use dv_refusal::What;
use dv_schema::Definition;
use dv_value::{Id, Value};
use std::alloc::{AllocError, Global};
use std::marker::Model;

/// Rows, grants, removals, dirty rollups and counters, with their earlier states.
///
/// Contracts see a store as its present world and the worlds before it, the oldest first. A mark is the number of the
/// earlier worlds at its time.
#[derive(Drop)]
pub struct Store {
    pub(crate) cells: Cells,
}

impl Model for Store {
    ghost use Rattle.dv_work.specs.History.{History, EachState, seen_by};
    ghost use Rattle.dv_store.specs.World.{World, history_code};
    ghost use Rattle.dv_store.specs.Kept.{world_in, IsWell};

    ghost Value = { History World };

    ghost coded = { history_code };

    ghost view = { λ s. seen_by world_in s.cells };

    ghost invariant = { λ s. EachState IsWell s.cells };
}

impl Store {
    /// A store of a definition, with nothing in it.
    ///
    /// # Errors
    ///
    /// Memory ran out.
    pub fn new(alloc: Global, definition: &Definition) -> Result<Store, AllocError>
        ensures present { IfOk result (λ store. store.present ≡ empty definition.now) }
        ensures earlier { IfOk result (λ store. store.earlier ≡ []) }
    {
        let shape = shape_of(alloc, definition)?;
        Ok(Store {
            cells: Cells::new(alloc, shape),
        })
    }

    /// The row of a table and an id, if it is there.
    pub fn row(&self, table: u16, id: Id) -> Option<&Row>
        ensures { option_copied result ≡ row_at self.now.present.rows table id }
    {
        self.cells.row(RowKey { table, id })
    }

    /// The direct and the inherited rights of a principal's grant on a row, or zeros where there is none.
    pub fn grant(&self, table: u16, id: Id, principal: Id) -> (u32, u32)
        ensures { result ≡ grant_at self.now.present.grants table id principal }
    {
        let row = RowKey { table, id };
        match self.cells.grant(GrantKey { row, principal }) {
            Some(rights) => rights,
            None => (0, 0),
        }
    }

    /// Whether users and teams own the rows of a table.
    pub fn is_owned(&self, table: u16) -> bool
        ensures { result ≡ is_owned self.now.present.shape table }
    {
        rolling::owns(&self.cells, table)
    }

    /// The counters.
    pub fn numbers(&self) -> Numbers
        ensures version { result.version ≡ self.now.present.version }
        ensures last_id { result.last_id ≡ self.now.present.last_id }
        ensures floor { result.floor ≡ self.now.present.floor }
    {
        let totals = self.cells.totals();
        Numbers {
            version: totals.version,
            last_id: totals.last_id,
            floor: totals.floor,
        }
    }

    /// Does nothing. Its clause says that each grant stands on a row that is there, of a table whose rows have owners.
    pub fn each_grant_stands_on_a_row(&self)
        ensures { GrantsStand self.now.present }
    {
        let _totals = self.cells.totals();
    }

    /// Puts a row, in the place of the one that its table and id had. A removal of its id goes. The rollups become dirty
    /// that the row before went into and that the new one goes into, and all rollups of a row that is new.
    ///
    /// # Errors
    ///
    /// `Limit(Row)`, where there would be more than 200,000 rows and removals together. `OutOfMemory`.
    pub fn put_row(&mut self, table: u16, id: Id, row: Row) -> Result<(), StoreFault>
        ensures ok { OnOk result (self.new
            ≡ with_state self.old (row_put self.old.present (row_key table id) row)) }
        ensures within { OnOk result
            (row_total (row_put self.old.present (row_key table id) row) ≤ most_rows) }
        ensures err { IfErr result (λ e. e ≡ fault_at (nat_lt most_rows
            (row_total (row_put self.old.present (row_key table id) row))) What.Row) }
        ensures kept { OnErr result (self.new ≡ self.old) }
    {
        let start = self.cells.mark();
        match putting::put_row(&mut self.cells, RowKey { table, id }, row) {
            Ok(()) => Ok(()),
            Err(fault) => {
                self.cells.undo_to(start);
                Err(fault)
            }
        }
    }

    /// Removes a row with its grants and its dirty rollups. The rollups become dirty that it went into. On a table with
    /// tracking it leaves a removal with the present version.
    ///
    /// # Errors
    ///
    /// Memory ran out.
    pub fn remove_row(&mut self, table: u16, id: Id) -> Result<(), AllocError>
        requires { is_there self.old.present.rows (row_key table id) ≡ true }
        ensures ok { OnOk result (self.new
            ≡ with_state self.old (row_removed self.old.present (row_key table id))) }
        ensures kept { OnErr result (self.new ≡ self.old) }
    {
        let start = self.cells.mark();
        match removing::remove_row(&mut self.cells, RowKey { table, id }) {
            Ok(()) => Ok(()),
            Err(fault) => {
                self.cells.undo_to(start);
                Err(fault)
            }
        }
    }

    /// Sets the direct and the inherited rights of a principal on a row. Zeros are no grant.
    ///
    /// # Errors
    ///
    /// `Limit(Grant)`, where there would be more than 500,000 grants. `OutOfMemory`.
    pub fn set_grant(
        &mut self,
        table: u16,
        id: Id,
        principal: Id,
        direct: u32,
        inherited: u32,
    ) -> Result<(), StoreFault>
        requires row { is_there self.old.present.rows (row_key table id) ≡ true }
        requires owned { is_owned self.old.present.shape table ≡ true }
        ensures ok { OnOk result (self.new ≡ with_state self.old
            (grant_set self.old.present (grant_key table id principal) direct inherited)) }
        ensures within { OnOk result (grant_total
            (grant_set self.old.present (grant_key table id principal) direct inherited)
            ≤ most_grants) }
        ensures err { IfErr result (λ e. e ≡ fault_at (nat_lt most_grants (grant_total
            (grant_set self.old.present (grant_key table id principal) direct inherited)))
            What.Grant) }
        ensures kept { OnErr result (self.new ≡ self.old) }
    {
        let start = self.cells.mark();
        let row = RowKey { table, id };
        let key = GrantKey { row, principal };
        match granting::set_grant(&mut self.cells, key, direct, inherited) {
            Ok(()) => Ok(()),
            Err(fault) => {
                self.cells.undo_to(start);
                Err(fault)
            }
        }
    }

    /// Puts a calculated rollup into its row: the value, the state and the date, a moment. The row then carries the
    /// present version, and the rollup isn't dirty.
    ///
    /// # Errors
    ///
    /// Memory ran out.
    pub fn set_rollup(
        &mut self,
        row: RowKey,
        column: u16,
        value: Value,
        state: i32,
        date: i64,
    ) -> Result<(), AllocError>
        requires { is_there self.old.present.rows row ≡ true }
        ensures ok { OnOk result (self.new
            ≡ with_state self.old (rolled self.old.present row column value state date)) }
        ensures kept { OnErr result (self.new ≡ self.old) }
    {
        let start = self.cells.mark();
        let calculated = Calculated {
            column,
            value,
            state,
            date,
        };
        match rolling::set_rollup(&mut self.cells, row, calculated) {
            Ok(()) => Ok(()),
            Err(fault) => {
                self.cells.undo_to(start);
                Err(fault)
            }
        }
    }

    /// Raises the floor, and drops the removals of versions up to it.
    ///
    /// # Errors
    ///
    /// Memory ran out.
    pub fn raise_floor(&mut self, floor: u64) -> Result<(), AllocError>
        requires above { self.old.present.floor ≤ floor }
        requires below { floor ≤ self.old.present.version }
        ensures ok { OnOk result (self.new ≡ with_state self.old
            (floor_raised self.old.present floor)) }
        ensures kept { OnErr result (self.new ≡ self.old) }
    {
        let start = self.cells.mark();
        match raising::raise_floor(&mut self.cells, floor) {
            Ok(()) => Ok(()),
            Err(fault) => {
                self.cells.undo_to(start);
                Err(fault)
            }
        }
    }

    /// Gives out the next version.
    ///
    /// # Errors
    ///
    /// `Limit(Version)`, where it would be above 2^63 - 1. `OutOfMemory`.
    pub fn bump(&mut self) -> Result<u64, StoreFault>
        ensures ok { OnOk result (self.new ≡ with_state self.old (bumped self.old.present)) }
        ensures version { IfOk result (λ version. version ≡ self.old.present.version + 1) }
        ensures within { OnOk result (self.old.present.version + 1 ≤ 2 ^ 63 - 1) }
        ensures err { IfErr result (λ e. e
            ≡ fault_at (nat_lt (2 ^ 63 - 1) (self.old.present.version + 1)) What.Version) }
        ensures kept { OnErr result (self.new ≡ self.old) }
    {
        numbers::bump(&mut self.cells)
    }

    /// Draws the next id.
    ///
    /// # Errors
    ///
    /// `Limit(Id)`, where it would be above 2^64 - 1. `OutOfMemory`.
    pub fn fresh_id(&mut self) -> Result<Id, StoreFault>
        ensures ok { OnOk result (self.new ≡ with_state self.old (id_drawn self.old.present)) }
        ensures id { IfOk result (λ id. id.0 ≡ self.old.present.last_id + 1) }
        ensures within { OnOk result (self.old.present.last_id + 1 ≤ 2 ^ 64 - 1) }
        ensures err { IfErr result (λ e. e
            ≡ fault_at (nat_lt (2 ^ 64 - 1) (self.old.present.last_id + 1)) What.Id) }
        ensures kept { OnErr result (self.new ≡ self.old) }
    {
        numbers::fresh_id(&mut self.cells)
    }

    /// A mark of the present world.
    pub fn mark(&self) -> usize
        ensures { result ≡ length self.now.earlier }
    {
        self.cells.mark()
    }

    /// Brings back the world of a mark, and the earlier ones that it had. The mark is of a world that wasn't forgotten
    /// or undone since. It takes no memory and no more time than the changes that it undoes.
    pub fn undo_to(&mut self, mark: usize)
        requires { mark ≤ length self.old.earlier }
        ensures { self.new ≡ back_at self.old mark }
    {
        self.cells.undo_to(mark);
    }

    /// Keeps the present world alone: earlier marks can't be used any more. It takes no memory.
    pub fn forget(&mut self)
        ensures { self.new ≡ present_alone self.old }
    {
        self.cells.forget();
    }

    /// The places that were changed since a mark, each once and in order. A place may have the same again; one that
    /// isn't told has what it had.
    ///
    /// # Errors
    ///
    /// Memory ran out.
    pub fn changes_since_mark(&self, mark: usize) -> Result<Vec<Place>, AllocError>
        requires { mark ≤ length self.now.earlier }
        ensures { IfOk result (λ places.
            AreChanges (back_at self.now mark).present self.now.present places.items) }
    {
        changes_since(&self.cells, mark)
    }
}
