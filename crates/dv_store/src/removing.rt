//! Removing a row with its grants.
ghost use Rattle.std.specs.Prelude.{◌≡◌, true, length, OnOk, OnErr};
ghost use Rattle.dv_work.specs.History.{back_at, with_present};
ghost use Rattle.dv_store.specs.Shapes.{is_tracked};
ghost use Rattle.dv_store.specs.World.{grant_set, is_there, row_removed, row_total};
ghost use Rattle.dv_store.specs.Kept.{adds_removal, with_count, with_grant, with_grants_gone, with_rows, with_removal_left, with_row_gone, IsWell, Moves, Steps};

use crate::cells::Cells;
use crate::granting::{grants_after, put_grant};
use crate::item::{Item, Totals};
use crate::keys::{GrantKey, Key, Place, RowKey};
use crate::listing::list;
use crate::marking::{mark_fed, mark_own};
use sqlite_items::at;
use std::alloc::AllocError;

/// Takes one grant, after which there are so many.
fn take_grant(cells: &mut Cells, key: GrantKey, grants: u64) -> Result<(), AllocError>
    ensures ok { OnOk result (cells.new ≡ with_present cells.old
        (with_grant (with_count cells.old.present grants) key 0 0)) }
    ensures err { OnErr result (cells.new.earlier ≡ cells.old.earlier) }
{
    let totals = cells.totals();
    cells.set_totals(Totals { grants, ..totals })?;
    put_grant(cells, key, 0, 0)
}

/// Takes one grant.
fn drop_grant(cells: &mut Cells, key: GrantKey) -> Result<(), AllocError>
    requires { IsWell cells.old.present }
    ensures ok { OnOk result (Steps cells.old cells.new
        (grant_set cells.old.present.world key 0 0)) }
    ensures err { OnErr result (cells.new.earlier ≡ cells.old.earlier) }
{
    let grants = grants_after(cells, key, 0, 0);
    take_grant(cells, key, grants)
}

/// Takes the grants on a row.
fn drop_grants(cells: &mut Cells, row: RowKey) -> Result<(), AllocError>
    requires { IsWell cells.old.present }
    ensures ok { OnOk result (Steps cells.old cells.new
        (with_grants_gone cells.old.present.world row)) }
    ensures err { OnErr result (cells.new.earlier ≡ cells.old.earlier) }
{
    let mut after = None;
    while let Some(principal) = cells.next_grant(row, after) {
        drop_grant(cells, GrantKey { row, principal })?;
        after = Some(principal);
    }
    Ok(())
}

/// Whether the removed rows of a table leave removals.
fn tracks(cells: &Cells, table: u16) -> bool
    ensures { result ≡ is_tracked cells.now.present.world.shape table }
{
    match at(cells.shape().tracked.as_slice(), usize::from(table)) {
        Some(tracked) => *tracked,
        None => false,
    }
}

/// Whether the row of a key leaves a removal where there was none.
fn adds_removal(cells: &Cells, key: RowKey) -> bool
    ensures { result ≡ adds_removal cells.now.present.world key }
{
    tracks(cells, key.table) && !cells.has_removal(key)
}

/// How many rows and removals there will be together when a row was removed.
fn rows_after(cells: &Cells, key: RowKey) -> u64
    requires well { IsWell cells.now.present }
    requires there { is_there cells.now.present.world.rows key ≡ true }
    ensures { result ≡ row_total (row_removed cells.now.present.world key) }
{
    let rows = cells.totals().rows;
    if adds_removal(cells, key) {
        rows
    } else {
        rows - 1
    }
}

/// Leaves a removal, on a table with tracking.
fn leave(cells: &mut Cells, key: RowKey) -> Result<(), AllocError>
    ensures ok { OnOk result (cells.new
        ≡ with_present cells.old (with_removal_left cells.old.present key)) }
    ensures err { OnErr result (cells.new.earlier ≡ cells.old.earlier) }
{
    if tracks(cells, key.table) {
        let version = cells.totals().version;
        cells.amend(Key::At(Place::Removal(key)), Some(Item::Removal(version)))?;
    }
    Ok(())
}

/// Takes a row that has no grants.
fn drop_row(cells: &mut Cells, key: RowKey) -> Result<(), AllocError>
    ensures ok { OnOk result (cells.new
        ≡ with_present cells.old (with_row_gone cells.old.present key)) }
    ensures err { OnErr result (cells.new.earlier ≡ cells.old.earlier) }
{
    mark_fed(cells, key)?;
    list(cells, key, false)?;
    cells.amend(Key::At(Place::Row(key)), None)?;
    mark_own(cells, key, false)?;
    leave(cells, key)
}

/// Takes a row that has no grants, after which there are so many rows and removals.
fn drop_rest(cells: &mut Cells, key: RowKey, rows: u64) -> Result<(), AllocError>
    ensures ok { OnOk result (cells.new ≡ with_present cells.old
        (with_row_gone (with_rows cells.old.present rows) key)) }
    ensures err { OnErr result (cells.new.earlier ≡ cells.old.earlier) }
{
    let totals = cells.totals();
    cells.set_totals(Totals { rows, ..totals })?;
    drop_row(cells, key)
}

/// Removes a row.
pub(crate) fn remove_row(cells: &mut Cells, key: RowKey) -> Result<(), AllocError>
    requires well { IsWell cells.old.present }
    requires there { is_there cells.old.present.world.rows key ≡ true }
    ensures ok { OnOk result (Moves cells.old cells.new (row_removed cells.old.present.world key)) }
    ensures back { OnErr result (back_at cells.new (length cells.old.earlier) ≡ cells.old) }
{
    let rows = rows_after(cells, key);
    cells.keep()?;
    drop_grants(cells, key)?;
    drop_rest(cells, key, rows)
}
