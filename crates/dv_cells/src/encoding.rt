//! The cell of an item.
ghost use Rattle.std.specs.Prelude.{◌≡◌, ◌++◌, IfOk, OnOk};
ghost use Rattle.std.specs.Int.{to_be_bytes, w16, w32, w64};
ghost use Rattle.dv_cells.specs.Bytes.{dirty_bytes, flag_bytes, flagged_bytes, grant_bytes};
ghost use Rattle.dv_cells.specs.Bytes.{header_bytes, id_bytes, pair_bytes, rights_bytes, row_bytes};
ghost use Rattle.dv_cells.specs.Items.{sheet_of, key_of, value_of, HasCell};

use crate::item::Item;
use crate::roles::put_role;
use crate::rows::put_values;
use crate::values::LAYOUT;
use dv_keeper::{Bytes, Cell};
use dv_store::{DirtyKey, GrantKey, Numbers, RowKey};
use dv_value::Id;
use std::alloc::{AllocError, Global};

fn put_id(out: &mut Vec<u8>, id: Id) -> Result<(), AllocError>
    ensures { OnOk result (out.new.items ≡ out.old.items ++ id_bytes id) }
{
    out.extend_from_slice(&id.0.to_be_bytes())
}

pub(crate) fn put_u16(out: &mut Vec<u8>, number: u16) -> Result<(), AllocError>
    ensures { OnOk result (out.new.items ≡ out.old.items ++ to_be_bytes w16 number) }
{
    out.extend_from_slice(&number.to_be_bytes())
}

fn put_u32(out: &mut Vec<u8>, number: u32) -> Result<(), AllocError>
    ensures { OnOk result (out.new.items ≡ out.old.items ++ to_be_bytes w32 number) }
{
    out.extend_from_slice(&number.to_be_bytes())
}

fn put_u64(out: &mut Vec<u8>, number: u64) -> Result<(), AllocError>
    ensures { OnOk result (out.new.items ≡ out.old.items ++ to_be_bytes w64 number) }
{
    out.extend_from_slice(&number.to_be_bytes())
}

pub(crate) fn put_flag(out: &mut Vec<u8>, flag: bool) -> Result<(), AllocError>
    ensures { OnOk result (out.new.items ≡ out.old.items ++ flag_bytes flag) }
{
    out.push(u8::from(flag))?;
    Ok(())
}

fn put_row(out: &mut Vec<u8>, key: RowKey) -> Result<(), AllocError>
    ensures { OnOk result (out.new.items ≡ out.old.items ++ row_bytes key) }
{
    put_u16(out, key.table)?;
    Ok(put_id(out, key.id)?)
}

fn put_grant(out: &mut Vec<u8>, key: GrantKey) -> Result<(), AllocError>
    ensures { OnOk result (out.new.items ≡ out.old.items ++ grant_bytes key) }
{
    put_row(out, key.row)?;
    Ok(put_id(out, key.principal)?)
}

fn put_dirty(out: &mut Vec<u8>, key: DirtyKey) -> Result<(), AllocError>
    ensures { OnOk result (out.new.items ≡ out.old.items ++ dirty_bytes key) }
{
    put_row(out, key.row)?;
    Ok(put_u16(out, key.column)?)
}

fn put_header(out: &mut Vec<u8>, numbers: Numbers) -> Result<(), AllocError>
    ensures { OnOk result (out.new.items ≡ out.old.items ++ header_bytes numbers) }
{
    put_u32(out, LAYOUT)?;
    put_u64(out, numbers.version)?;
    put_u64(out, numbers.last_id)?;
    Ok(put_u64(out, numbers.floor)?)
}

fn put_pair(out: &mut Vec<u8>, first: Id, second: Id) -> Result<(), AllocError>
    ensures { OnOk result (out.new.items ≡ out.old.items ++ pair_bytes (first, second)) }
{
    put_id(out, first)?;
    Ok(put_id(out, second)?)
}

fn put_flagged(out: &mut Vec<u8>, id: Id, flag: bool) -> Result<(), AllocError>
    ensures { OnOk result (out.new.items ≡ out.old.items ++ flagged_bytes (id, flag)) }
{
    put_id(out, id)?;
    Ok(put_flag(out, flag)?)
}

fn put_rights(out: &mut Vec<u8>, direct: u32, inherited: u32) -> Result<(), AllocError>
    ensures { OnOk result (out.new.items ≡ out.old.items ++ rights_bytes (direct, inherited)) }
{
    put_u32(out, direct)?;
    Ok(put_u32(out, inherited)?)
}

/// The number of an item's sheet.
#[tactic(auto, unfolding(crate::specs::Items::sheet_of))]
fn sheet_of(item: &Item) -> u8
    ensures { result ≡ sheet_of item.now }
{
    match item {
        Item::Header { .. } => 1,
        Item::Line { .. } => 2,
        Item::Unit { .. } => 3,
        Item::User { .. } => 4,
        Item::Team { .. } => 5,
        Item::Member { .. } => 6,
        Item::Role { .. } => 7,
        Item::Gift { .. } => 8,
        Item::Row { .. } => 9,
        Item::Grant { .. } => 10,
        Item::Removal { .. } => 11,
        Item::Dirty { .. } => 12,
    }
}

/// Adds the key of an item.
#[tactic(auto, unfolding(crate::specs::Items::key_of))]
fn put_key(item: &Item, out: &mut Vec<u8>) -> Result<(), AllocError>
    ensures { OnOk result (out.new.items ≡ out.old.items ++ key_of item.now) }
{
    match item {
        Item::Header { .. } | Item::Line { .. } => Ok(()),
        Item::Unit { id, .. }
        | Item::User { id, .. }
        | Item::Team { id, .. }
        | Item::Role { id, .. } => Ok(put_id(out, *id)?),
        Item::Member { team, user } => Ok(put_pair(out, *team, *user)?),
        Item::Gift { principal, role } => Ok(put_pair(out, *principal, *role)?),
        Item::Grant { key, .. } => Ok(put_grant(out, *key)?),
        Item::Row { key, .. } | Item::Removal { key, .. } => Ok(put_row(out, *key)?),
        Item::Dirty { key } => Ok(put_dirty(out, *key)?),
    }
}

/// Adds the value of an item.
#[tactic(auto, unfolding(crate::specs::Items::value_of, crate::specs::Items::HasCell))]
fn put_value(alloc: Global, item: &Item, out: &mut Vec<u8>) -> Result<(), AllocError>
    requires { HasCell item.now }
    ensures { OnOk result (out.new.items ≡ out.old.items ++ value_of item.now) }
{
    match item {
        Item::Header { numbers } => Ok(put_header(out, *numbers)?),
        Item::Line { bytes } => Ok(out.extend_from_slice(bytes.as_slice())?),
        Item::Unit { parent, .. } => Ok(put_id(out, *parent)?),
        Item::User { unit, enabled, .. } => Ok(put_flagged(out, *unit, *enabled)?),
        Item::Team { unit, access, .. } => Ok(put_flagged(out, *unit, *access)?),
        Item::Role {
            direct,
            manage,
            entries,
            ..
        } => Ok(put_role(out, *direct, *manage, entries.as_slice())?),
        Item::Grant {
            direct,
            inherited,
            ..
        } => Ok(put_rights(out, *direct, *inherited)?),
        Item::Row { row, .. } => Ok(put_values(alloc, row.values.as_slice(), out)?),
        Item::Removal { version, .. } => Ok(put_u64(out, *version)?),
        Item::Member { .. } | Item::Gift { .. } | Item::Dirty { .. } => Ok(()),
    }
}

/// The sheet of an item, and its cell there.
pub fn encode(alloc: Global, item: &Item) -> Result<(u8, Cell), AllocError>
    requires { HasCell item.now }
    ensures sheet { IfOk result (λ made. made.0 ≡ sheet_of item.now) }
    ensures key { IfOk result (λ made. made.1.key ≡ key_of item.now) }
    ensures value { IfOk result (λ made. made.1.value ≡ value_of item.now) }
{
    let mut key = Vec::new(alloc);
    put_key(item, &mut key)?;
    let mut value = Vec::new(alloc);
    put_value(alloc, item, &mut value)?;
    let cell = Cell {
        key: Bytes::from_vec(key),
        value: Bytes::from_vec(value),
    };
    Ok((sheet_of(item), cell))
}
