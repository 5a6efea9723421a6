//! Putting a row.
ghost use Rattle.std.specs.Prelude.{◌≡◌, ◌+◌, ◌≤◌, length, OnOk, OnErr, IfErr, nat_lt};
ghost use Rattle.std.specs.FinMap as map;
ghost use Rattle.dv_work.specs.History.{back_at, with_present, with_state};
ghost use Rattle.dv_store.specs.World.{fault_at, most_rows, row_put, row_total};
ghost use Rattle.dv_store.specs.Kept.{row_made, with_row, IsWell, Moves};
ghost use Rattle.dv_store.specs.declared.row.Row as row;

use crate::cells::Cells;
use crate::fault::StoreFault;
use crate::item::{Item, Totals};
use crate::keys::{Key, Place, RowKey};
use crate::listing::list;
use crate::marking::{mark_fed, mark_new};
use crate::row::Row;
use dv_refusal::What;
use std::alloc::AllocError;

/// The most rows and removals that there may be together.
pub(crate) const MOST_ROWS: u64 = 200_000;

/// How many rows and removals there are together, the removal of a key left out.
fn rows_without_removal(cells: &Cells, key: RowKey) -> u64
    requires { IsWell cells.now.present }
    ensures { result ≡ map.len cells.now.present.world.rows
        + map.len (map.remove cells.now.present.world.removals key) }
{
    let rows = cells.totals().rows;
    if cells.has_removal(key) {
        rows - 1
    } else {
        rows
    }
}

/// How many rows and removals there will be together when a row was put.
fn rows_after(cells: &Cells, key: RowKey) -> u64
    requires { IsWell cells.now.present }
    ensures { (row : row.Row) → result ≡ row_total (row_put cells.now.present.world key row) }
{
    let rows = rows_without_removal(cells, key);
    if cells.has_row(key) { rows } else { rows + 1 }
}

/// Takes the row of a key out of its lists, puts another one and lists that.
pub(crate) fn replace(cells: &mut Cells, key: RowKey, row: Row) -> Result<(), AllocError>
    ensures ok { OnOk result (cells.new
        ≡ with_present cells.old (with_row cells.old.present key row)) }
    ensures err { OnErr result (cells.new.earlier ≡ cells.old.earlier) }
{
    list(cells, key, false)?;
    cells.amend(Key::At(Place::Row(key)), Some(Item::Row(row)))?;
    list(cells, key, true)
}

/// Puts a row, with all that this means for lists and dirty rollups.
fn make_row(
    cells: &mut Cells,
    key: RowKey,
    row: Row,
    rows: u64,
    there: bool,
) -> Result<(), AllocError>
    ensures ok { OnOk result (cells.new
        ≡ with_state cells.old (row_made cells.old.present key row rows there)) }
    ensures back { OnErr result (back_at cells.new (length cells.old.earlier) ≡ cells.old) }
{
    let totals = cells.totals();
    cells.begin(Totals { rows, ..totals })?;
    mark_fed(cells, key)?;
    cells.amend(Key::At(Place::Removal(key)), None)?;
    replace(cells, key, row)?;
    mark_fed(cells, key)?;
    mark_new(cells, key, there)
}

/// Puts a row.
pub(crate) fn put_row(cells: &mut Cells, key: RowKey, row: Row) -> Result<(), StoreFault>
    requires { IsWell cells.old.present }
    ensures ok { OnOk result (Moves cells.old cells.new (row_put cells.old.present.world key row)) }
    ensures within { OnOk result (row_total (row_put cells.old.present.world key row) ≤ most_rows) }
    ensures err { IfErr result (λ e. e ≡ fault_at
        (nat_lt most_rows (row_total (row_put cells.old.present.world key row))) What.Row) }
    ensures back { OnErr result (back_at cells.new (length cells.old.earlier) ≡ cells.old) }
{
    let rows = rows_after(cells, key);
    if rows > MOST_ROWS {
        return Err(StoreFault::Limit(What::Row));
    }
    let there = cells.has_row(key);
    match make_row(cells, key, row, rows, there) {
        Ok(()) => Ok(()),
        Err(_) => Err(StoreFault::OutOfMemory),
    }
}
