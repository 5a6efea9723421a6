//! Raising the floor, the version up to which removals are forgotten.
ghost use Rattle.std.specs.Prelude.{◌≡◌, ◌<◌, ◌^◌, IsSome, length, OnOk, OnErr};
ghost use Rattle.std.specs.FinMap as map;
ghost use Rattle.dv_work.specs.History.{back_at, with_present};
ghost use Rattle.dv_store.specs.World.{floor_raised, is_up_to};
ghost use Rattle.dv_store.specs.Kept.{with_rows, IsWell, Moves, Steps};
ghost use Rattle.dv_store.specs.Raised.{removal_dropped, removal_gone, removals_dropped, with_removal_gone};

use crate::cells::Cells;
use crate::item::{Item, Totals};
use crate::keys::{Key, Place, RowKey};
use std::alloc::AllocError;

/// Whether the removal of a key is of a version up to a floor.
fn is_old(cells: &Cells, key: RowKey, floor: u64) -> bool
    ensures { result ≡ is_up_to floor (map.get cells.now.present.world.removals key) }
{
    match cells.removal(key) {
        Some(version) => version <= floor,
        None => false,
    }
}

/// Takes a removal, after which there are so many rows and removals.
fn take_removal(cells: &mut Cells, key: RowKey, rows: u64) -> Result<(), AllocError>
    ensures ok { OnOk result (cells.new ≡ with_present cells.old
        (with_removal_gone (with_rows cells.old.present rows) key)) }
    ensures err { OnErr result (cells.new.earlier ≡ cells.old.earlier) }
{
    let totals = cells.totals();
    cells.set_totals(Totals { rows, ..totals })?;
    cells.amend(Key::At(Place::Removal(key)), None)
}

/// Takes a removal that is there.
fn drop_removal(cells: &mut Cells, key: RowKey) -> Result<(), AllocError>
    requires well { IsWell cells.old.present }
    requires there { IsSome (map.get cells.old.present.world.removals key) }
    ensures ok { OnOk result (Steps cells.old cells.new
        (removal_gone cells.old.present.world key)) }
    ensures err { OnErr result (cells.new.earlier ≡ cells.old.earlier) }
{
    let rows = cells.totals().rows - 1;
    take_removal(cells, key, rows)
}

/// Takes a removal that is there, if its version is at most a floor. The walk over them ends because the numbers of a
/// key are bounded, as the last two clauses say.
fn drop_if_old(cells: &mut Cells, key: RowKey, floor: u64) -> Result<(), AllocError>
    requires well { IsWell cells.old.present }
    requires there { IsSome (map.get cells.old.present.world.removals key) }
    ensures ok { OnOk result (Steps cells.old cells.new
        (removal_dropped cells.old.present.world key floor)) }
    ensures err { OnErr result (cells.new.earlier ≡ cells.old.earlier) }
    ensures table { key.table < 2 ^ 16 }
    ensures id { key.id.0 < 2 ^ 128 }
{
    if is_old(cells, key, floor) {
        return drop_removal(cells, key);
    }
    Ok(())
}

/// Takes the removals up to a floor.
fn drop_removals(cells: &mut Cells, floor: u64) -> Result<(), AllocError>
    requires { IsWell cells.old.present }
    ensures ok { OnOk result (Steps cells.old cells.new
        (removals_dropped cells.old.present.world floor)) }
    ensures err { OnErr result (cells.new.earlier ≡ cells.old.earlier) }
{
    let mut after = None;
    while let Some(key) = cells.next_of_removals(after) {
        drop_if_old(cells, key, floor)?;
        after = Some(key);
    }
    Ok(())
}

/// Raises the floor.
pub(crate) fn raise_floor(cells: &mut Cells, floor: u64) -> Result<(), AllocError>
    requires { IsWell cells.old.present }
    ensures ok { OnOk result (Moves cells.old cells.new
        (floor_raised cells.old.present.world floor)) }
    ensures back { OnErr result (back_at cells.new (length cells.old.earlier) ≡ cells.old) }
{
    let totals = cells.totals();
    cells.begin(Totals { floor, ..totals })?;
    drop_removals(cells, floor)
}
