//! The item of a cell.
ghost use Rattle.std.specs.Prelude.{◌≡◌, IfOk, IsErrOf};
ghost use Rattle.std.specs.Option.{ok_or};
ghost use Rattle.dv_cells.specs.Items.{IsCellOf};
ghost use Rattle.dv_cells.specs.declared.item.Item.{Item as AnItem};

use crate::item::Item;
use crate::roles::role;
use crate::rows::row;
use crate::sheets::{dirty, gift, grant, header, line, member, removal, team, unit, user};
use dv_keeper::Cell;
use dv_value::TakeFault;
use std::alloc::Global;

/// The item that was found, or that there is none.
fn found(item: Option<Item>) -> Result<Item, TakeFault>
    ensures { result ≡ ok_or item TakeFault.NotCanonical }
{
    match item {
        Some(item) => Ok(item),
        None => Err(TakeFault::NotCanonical),
    }
}

/// The item that a cell of a sheet stands for. It is the only one: no two items have the same cell.
///
/// # Errors
///
/// `NotCanonical` exactly where the cell is no item's: its sheet has no cells, or its key or its
/// value isn't what its sheet has.
#[tactic(auto, unfolding(crate::specs::Items::sheet_of))]
pub fn decode_cell(alloc: Global, sheet: u8, cell: &Cell) -> Result<Item, TakeFault>
    ensures decoded { IfOk result (λ item. IsCellOf sheet cell.now.key cell.now.value item) }
    ensures refused { IsErrOf result TakeFault.NotCanonical
        → (item : AnItem) → IsCellOf sheet cell.now.key cell.now.value item → ⊥ }
{
    let key = cell.key.as_slice();
    let value = cell.value.as_slice();
    match sheet {
        1 => found(header(key, value)),
        2 => line(alloc, key, value),
        3 => found(unit(key, value)),
        4 => found(user(key, value)),
        5 => found(team(key, value)),
        6 => found(member(key, value)),
        7 => role(alloc, key, value),
        8 => found(gift(key, value)),
        9 => row(alloc, key, value),
        10 => found(grant(key, value)),
        11 => found(removal(key, value)),
        12 => found(dirty(key, value)),
        _ => Err(TakeFault::NotCanonical),
    }
}
