//! The cells of security roles, whose entries have four bytes each.
ghost use Rattle.std.specs.Prelude.{◌≡◌, ℕ, Bool, List, [], ◌∷◌, ◌++◌, ◌↔◌};
ghost use Rattle.std.specs.Prelude.{IsTrue, IfOk, OnOk, IsErrOf, MatchOption};
ghost use Rattle.std.specs.Int.{from_bool};
ghost use Rattle.dv_roles.specs.Actions.{number_of};
ghost use Rattle.dv_schema.specs.declared.opening.Action.{Action as AnAction};
ghost use Rattle.dv_roles.specs.declared.role.RoleEntry.{RoleEntry as ARoleEntry};
ghost use Rattle.dv_cells.specs.Bytes.{entry_bytes, entries_bytes, role_bytes};
ghost use Rattle.dv_cells.specs.Bytes.{Ascend, BeginsAfter, ComesBefore};
ghost use Rattle.dv_cells.specs.Bytes.{FitsEntry, IsListOf, Reads};
ghost use Rattle.dv_cells.specs.Items.{IsCellOf};
ghost use Rattle.dv_cells.specs.declared.item.Item.{Item as AnItem};

use crate::bytes::read_id;
use crate::encoding::{put_flag, put_u16};
use crate::item::Item;
use dv_roles::RoleEntry;
use dv_schema::Action;
use dv_value::TakeFault;
use sqlite_items::Items;
use std::alloc::{AllocError, Global};

/// An action's place in the order.
fn number_of(action: Action) -> u8
    ensures { result ≡ number_of action }
{
    match action {
        Action::Create => 0,
        Action::Read => 1,
        Action::Write => 2,
        Action::Delete => 3,
        Action::Append => 4,
        Action::AppendTo => 5,
        Action::Assign => 6,
        Action::Share => 7,
    }
}

/// The action at a place of the order.
fn action_of(number: u8) -> Option<Action>
    ensures { MatchOption result ((action : AnAction) → number ≡ number_of action → ⊥)
        (λ action. number ≡ number_of action) }
{
    match number {
        0 => Some(Action::Create),
        1 => Some(Action::Read),
        2 => Some(Action::Write),
        3 => Some(Action::Delete),
        4 => Some(Action::Append),
        5 => Some(Action::AppendTo),
        6 => Some(Action::Assign),
        7 => Some(Action::Share),
        _ => None,
    }
}

/// The entry of four bytes.
fn read_entry(bytes: &[u8]) -> Option<RoleEntry>
    ensures { Reads entry_bytes FitsEntry bytes.now result }
{
    let [action, high, low, depth] = bytes else {
        return None;
    };
    let action = action_of(*action)?;
    Some(RoleEntry {
        action,
        table: u16::from_be_bytes([*high, *low]),
        depth: *depth,
    })
}

/// Adds an entry at the end.
fn keep(entries: &mut Items<RoleEntry>, entry: RoleEntry) -> Result<(), AllocError>
    ensures { OnOk result (entries.new ≡ entries.old ++ entry ∷ []) }
{
    entries.push(entry)
}

/// The entries that the bytes are, in whatever order.
fn read_entries(alloc: Global, bytes: &[u8]) -> Result<Items<RoleEntry>, TakeFault>
    ensures read { IfOk result (λ entries. IsListOf bytes.now entries) }
    ensures only { IfOk result (λ entries. (others : List ARoleEntry)
        → IsListOf bytes.now others → others ≡ entries) }
    ensures refused { IsErrOf result TakeFault.NotCanonical
        → (entries : List ARoleEntry) → IsListOf bytes.now entries → ⊥ }
{
    let mut entries = Items::new(alloc);
    let mut rest = bytes;
    while !rest.is_empty() {
        let Some((first, after)) = rest.split_first_chunk::<4>() else {
            return Err(TakeFault::NotCanonical);
        };
        let Some(entry) = read_entry(first) else {
            return Err(TakeFault::NotCanonical);
        };
        keep(&mut entries, entry)?;
        rest = after;
    }
    Ok(entries)
}

/// Whether one entry comes before another.
fn comes_before(a: &RoleEntry, b: &RoleEntry) -> bool
    ensures { IsTrue result ↔ ComesBefore a.now b.now }
{
    let (a_number, b_number) = (number_of(a.action), number_of(b.action));
    a_number < b_number || a_number == b_number && a.table < b.table
}

/// Whether an entry comes before the first of these, if there is one.
fn begins_after(entry: &RoleEntry, more: &[RoleEntry]) -> bool
    ensures { IsTrue result ↔ BeginsAfter entry.now more.now }
{
    match more.first() {
        Some(next) => comes_before(entry, next),
        None => true,
    }
}

/// Whether each entry comes before the next one.
fn ascend(entries: &[RoleEntry]) -> bool
    ensures { IsTrue result ↔ Ascend entries.now }
{
    let mut rest = entries;
    while let Some((first, after)) = rest.split_first() {
        if !begins_after(first, after) {
            return false;
        }
        rest = after;
    }
    true
}

/// The two truth values that bytes begin with, and what follows them.
fn split_flags(bytes: &[u8]) -> Option<(bool, bool, &[u8])>
    ensures { MatchOption result
        ((direct manage : Bool) (rest : List ℕ)
        → bytes.now ≡ from_bool direct ∷ from_bool manage ∷ rest → ⊥)
        (λ parts. bytes.now ≡ from_bool parts.0 ∷ from_bool parts.1 ∷ parts.2.now) }
{
    match bytes {
        [direct, manage, rest @ ..] if *direct <= 1 && *manage <= 1 => {
            Some((*direct == 1, *manage == 1, rest))
        }
        _ => None,
    }
}

#[tactic(auto, unfolding(crate::specs::Items::sheet_of, crate::specs::Items::key_of, crate::specs::Items::value_of, crate::specs::Items::IsItem, crate::specs::Items::HasCell))]
pub(crate) fn role(alloc: Global, key: &[u8], value: &[u8]) -> Result<Item, TakeFault>
    ensures decoded { IfOk result (λ item. IsCellOf 7 key.now value.now item) }
    ensures refused { IsErrOf result TakeFault.NotCanonical
        → (item : AnItem) → IsCellOf 7 key.now value.now item → ⊥ }
{
    let Some(id) = read_id(key) else {
        return Err(TakeFault::NotCanonical);
    };
    let Some((direct, manage, bytes)) = split_flags(value) else {
        return Err(TakeFault::NotCanonical);
    };
    let entries = match read_entries(alloc, bytes) {
        Ok(entries) => entries,
        Err(fault) => return Err(fault),
    };
    if id.0 == 0 {
        return Err(TakeFault::NotCanonical);
    }
    if !ascend(entries.as_slice()) {
        return Err(TakeFault::NotCanonical);
    }
    Ok(Item::Role {
        id,
        direct,
        manage,
        entries,
    })
}

/// Adds a role's value.
pub(crate) fn put_role(
    out: &mut Vec<u8>,
    direct: bool,
    manage: bool,
    entries: &[RoleEntry],
) -> Result<(), AllocError>
    ensures { OnOk result (out.new.items ≡ out.old.items ++ role_bytes direct manage entries.now) }
{
    put_flag(out, direct)?;
    put_flag(out, manage)?;
    Ok(put_entries(out, entries)?)
}

/// Adds an entry.
fn put_entry(out: &mut Vec<u8>, entry: &RoleEntry) -> Result<(), AllocError>
    ensures { OnOk result (out.new.items ≡ out.old.items ++ entry_bytes entry.now) }
{
    out.push(number_of(entry.action))?;
    put_u16(out, entry.table)?;
    out.push(entry.depth)?;
    Ok(())
}

/// Adds entries.
fn put_entries(out: &mut Vec<u8>, entries: &[RoleEntry]) -> Result<(), AllocError>
    ensures { OnOk result (out.new.items ≡ out.old.items ++ entries_bytes entries.now) }
{
    let mut rest = entries;
    while let Some((first, after)) = rest.split_first() {
        put_entry(out, first)?;
        rest = after;
    }
    Ok(())
}
