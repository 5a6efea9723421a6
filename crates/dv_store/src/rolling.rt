//! Putting a calculated rollup into its row.
ghost use Rattle.std.specs.Prelude.{◌≡◌, true, length, OnOk, OnErr, IfOk, slice_set};
ghost use Rattle.dv_work.specs.History.{back_at};
ghost use Rattle.dv_store.specs.Shapes.{is_owned};
ghost use Rattle.dv_store.specs.World.{is_there};
ghost use Rattle.dv_store.specs.Rolled.{rolled, row_rolled, version_place};
ghost use Rattle.dv_store.specs.Kept.{IsWell, Moves};

use crate::cells::Cells;
use crate::keys::{DirtyKey, RowKey};
use crate::putting::replace;
use crate::row::Row;
use crate::shape::place_of;
use dv_value::Value;
use sqlite_items::{Items, at};
use std::alloc::{AllocError, Global};

/// The same row.
fn copied(alloc: Global, row: &Row) -> Result<Row, AllocError>
    ensures { IfOk result (λ copy. copy ≡ row.now) }
{
    let mut values = Items::new(alloc);
    for value in row.values.as_slice() {
        values.push(value.copy(alloc)?)?;
    }
    Ok(Row { values })
}

/// Puts a value at a place of a row, if the row has it.
fn put_value(row: &mut Row, place: usize, value: Value)
    ensures { row.new.values ≡ slice_set row.old.values place value }
{
    if place < row.values.len() {
        row.values.set(place, value);
    }
}

/// Whether users and teams own the rows of a table.
pub(crate) fn owns(cells: &Cells, table: u16) -> bool
    ensures { result ≡ is_owned cells.now.present.world.shape table }
{
    match at(cells.shape().owned.as_slice(), usize::from(table)) {
        Some(owned) => *owned,
        None => false,
    }
}

/// The place of the version among the values of a table's rows.
fn version_place(cells: &Cells, table: u16) -> usize
    ensures { result ≡ version_place (is_owned cells.now.present.world.shape table) }
{
    if owns(cells, table) { 6 } else { 5 }
}

/// A rollup as it was calculated.
#[derive(Drop)]
pub(crate) struct Calculated {
    pub column: u16,
    pub value: Value,
    pub state: i32,
    pub date: i64,
}

/// The row with a calculated rollup.
fn with_rollup(
    cells: &Cells,
    table: u16,
    row: &Row,
    calculated: Calculated,
) -> Result<Row, AllocError>
    requires { IsWell cells.now.present }
    ensures { IfOk result (λ new. new ≡ row_rolled cells.now.present.world table
        calculated.column calculated.value calculated.state calculated.date row.now) }
{
    let Calculated {
        column,
        value,
        state,
        date,
    } = calculated;
    let place = usize::from(place_of(column));
    let version = cells.totals().version;
    let mut new = copied(cells.alloc, row)?;
    put_value(&mut new, place, value);
    put_value(&mut new, place + 1, Value::Whole(state));
    put_value(&mut new, place + 2, Value::Moment(date));
    put_value(
        &mut new,
        version_place(cells, table),
        Value::Amount(version as i64),
    );
    Ok(new)
}

/// Puts a calculated rollup into its row, which isn't dirty there any more.
pub(crate) fn set_rollup(
    cells: &mut Cells,
    key: RowKey,
    calculated: Calculated,
) -> Result<(), AllocError>
    requires well { IsWell cells.old.present }
    requires there { is_there cells.old.present.world.rows key ≡ true }
    ensures ok { OnOk result (Moves cells.old cells.new (rolled cells.old.present.world key
        calculated.column calculated.value calculated.state calculated.date)) }
    ensures back { OnErr result (back_at cells.new (length cells.old.earlier) ≡ cells.old) }
{
    let column = calculated.column;
    let row = match cells.row(key) {
        Some(row) => with_rollup(cells, key.table, row, calculated)?,
        None => return Ok(()),
    };
    cells.keep()?;
    replace(cells, key, row)?;
    cells.set_dirty(DirtyKey { row: key, column }, false)
}
