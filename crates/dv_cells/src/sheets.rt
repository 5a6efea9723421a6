//! The cells of each sheet, read.
ghost use Rattle.std.specs.Prelude.{IfOk, IsErrOf};
ghost use Rattle.dv_cells.specs.Items.{IsCellOf, Finds};
ghost use Rattle.dv_cells.specs.declared.item.Item.{Item as AnItem};

use crate::bytes::{read_id, read_u64};
use crate::item::Item;
use crate::keys::{read_dirty, read_grant, read_pair, read_row};
use crate::values::{read_flagged, read_header, read_rights};
use dv_keeper::Bytes;
use dv_value::TakeFault;
use std::alloc::Global;

#[tactic(auto, unfolding(crate::specs::Items::sheet_of, crate::specs::Items::key_of, crate::specs::Items::value_of, crate::specs::Items::IsItem, crate::specs::Items::HasCell))]
pub(crate) fn header(key: &[u8], value: &[u8]) -> Option<Item>
    ensures { Finds 1 key.now value.now result }
{
    if !key.is_empty() {
        return None;
    }
    let numbers = read_header(value)?;
    Some(Item::Header { numbers })
}

#[tactic(auto, unfolding(crate::specs::Items::sheet_of, crate::specs::Items::key_of, crate::specs::Items::value_of, crate::specs::Items::IsItem, crate::specs::Items::HasCell))]
pub(crate) fn line(alloc: Global, key: &[u8], value: &[u8]) -> Result<Item, TakeFault>
    ensures decoded { IfOk result (λ item. IsCellOf 2 key.now value.now item) }
    ensures refused { IsErrOf result TakeFault.NotCanonical
        → (item : AnItem) → IsCellOf 2 key.now value.now item → ⊥ }
{
    if !key.is_empty() {
        return Err(TakeFault::NotCanonical);
    }
    Ok(Item::Line {
        bytes: Bytes::from_slice(alloc, value)?,
    })
}

#[tactic(auto, unfolding(crate::specs::Items::sheet_of, crate::specs::Items::key_of, crate::specs::Items::value_of, crate::specs::Items::IsItem, crate::specs::Items::HasCell))]
pub(crate) fn unit(key: &[u8], value: &[u8]) -> Option<Item>
    ensures { Finds 3 key.now value.now result }
{
    let id = read_id(key)?;
    let parent = read_id(value)?;
    Some(Item::Unit { id, parent })
}

#[tactic(auto, unfolding(crate::specs::Items::sheet_of, crate::specs::Items::key_of, crate::specs::Items::value_of, crate::specs::Items::IsItem, crate::specs::Items::HasCell))]
pub(crate) fn user(key: &[u8], value: &[u8]) -> Option<Item>
    ensures { Finds 4 key.now value.now result }
{
    let id = read_id(key)?;
    let (unit, enabled) = read_flagged(value)?;
    Some(Item::User { id, unit, enabled })
}

#[tactic(auto, unfolding(crate::specs::Items::sheet_of, crate::specs::Items::key_of, crate::specs::Items::value_of, crate::specs::Items::IsItem, crate::specs::Items::HasCell))]
pub(crate) fn team(key: &[u8], value: &[u8]) -> Option<Item>
    ensures { Finds 5 key.now value.now result }
{
    let id = read_id(key)?;
    let (unit, access) = read_flagged(value)?;
    Some(Item::Team { id, unit, access })
}

#[tactic(auto, unfolding(crate::specs::Items::sheet_of, crate::specs::Items::key_of, crate::specs::Items::value_of, crate::specs::Items::IsItem, crate::specs::Items::HasCell))]
pub(crate) fn member(key: &[u8], value: &[u8]) -> Option<Item>
    ensures { Finds 6 key.now value.now result }
{
    let (team, user) = read_pair(key)?;
    if !value.is_empty() {
        return None;
    }
    Some(Item::Member { team, user })
}

#[tactic(auto, unfolding(crate::specs::Items::sheet_of, crate::specs::Items::key_of, crate::specs::Items::value_of, crate::specs::Items::IsItem, crate::specs::Items::HasCell))]
pub(crate) fn gift(key: &[u8], value: &[u8]) -> Option<Item>
    ensures { Finds 8 key.now value.now result }
{
    let (principal, role) = read_pair(key)?;
    if !value.is_empty() {
        return None;
    }
    Some(Item::Gift { principal, role })
}

#[tactic(auto, unfolding(crate::specs::Items::sheet_of, crate::specs::Items::key_of, crate::specs::Items::value_of, crate::specs::Items::IsItem, crate::specs::Items::HasCell))]
pub(crate) fn grant(key: &[u8], value: &[u8]) -> Option<Item>
    ensures { Finds 10 key.now value.now result }
{
    let key = read_grant(key)?;
    let (direct, inherited) = read_rights(value)?;
    Some(Item::Grant {
        key,
        direct,
        inherited,
    })
}

#[tactic(auto, unfolding(crate::specs::Items::sheet_of, crate::specs::Items::key_of, crate::specs::Items::value_of, crate::specs::Items::IsItem, crate::specs::Items::HasCell))]
pub(crate) fn removal(key: &[u8], value: &[u8]) -> Option<Item>
    ensures { Finds 11 key.now value.now result }
{
    let key = read_row(key)?;
    let version = read_u64(value)?;
    Some(Item::Removal { key, version })
}

#[tactic(auto, unfolding(crate::specs::Items::sheet_of, crate::specs::Items::key_of, crate::specs::Items::value_of, crate::specs::Items::IsItem, crate::specs::Items::HasCell))]
pub(crate) fn dirty(key: &[u8], value: &[u8]) -> Option<Item>
    ensures { Finds 12 key.now value.now result }
{
    let key = read_dirty(key)?;
    if !value.is_empty() {
        return None;
    }
    Some(Item::Dirty { key })
}
