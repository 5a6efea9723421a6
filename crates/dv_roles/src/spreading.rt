//! How the privileges of a role are spread out over actions and tables.
ghost use Rattle.std.specs.Prelude.{◌≡◌, ◌++◌, ◌<◌, ◌&&◌, ◌==◌, OnOk, IfOk, length, slice_get, Some, flat_map};
ghost use Rattle.std.specs.List.{list_any};
ghost use Rattle.dv_schema.specs.Definitions.{tables_of};
ghost use Rattle.dv_roles.specs.Entries.{is_on, is_for, covers, is_at_depth, greatest, kept_at, kept_for, spread};

use crate::actions::{ACTIONS, has_action, same_action};
use crate::role::RoleEntry;
use dv_schema::{Action, Definition, Entry, Table};
use sqlite_items::{Items, at};
use std::alloc::{AllocError, Global};

/// Whether an entry is on a table.
fn is_on(table: &Table, entry: &Entry) -> bool
    ensures { result ≡ is_on table.now entry.now }
{
    match &entry.table {
        Some(name) => table.name.as_str() == name.as_str(),
        None => table.user_owned || entry.depth == 3,
    }
}

/// Whether an entry is for an action.
fn is_for(action: Action, own: Option<Action>) -> bool
    ensures { result ≡ is_for action own }
{
    match own {
        Some(own) => same_action(own, action),
        None => true,
    }
}

/// Whether an entry allows an action on a table.
#[tactic(auto, unfolding(crate::specs::Entries::covers))]
fn covers(table: &Table, action: Action, entry: &Entry) -> bool
    ensures { result ≡ covers table.now action entry.now }
{
    has_action(table.user_owned, action) && is_for(action, entry.action) && is_on(table, entry)
}

/// Whether one of the entries allows an action on a table at a depth.
fn is_at_depth(entries: &[Entry], table: &Table, action: Action, depth: u8) -> bool
    ensures { result ≡ is_at_depth entries.now table.now action depth }
{
    entries.iter().any(|entry| covers(table, action, entry) && entry.depth == depth)
}

/// The greatest depth at which one of the entries allows an action on a table.
#[tactic(auto, unfolding(crate::specs::Entries::greatest))]
fn greatest(entries: &[Entry], table: &Table, action: Action) -> Option<u8>
    ensures { result ≡ greatest entries.now table.now action }
{
    if is_at_depth(entries, table, action, 3) {
        return Some(3);
    }
    if is_at_depth(entries, table, action, 2) {
        return Some(2);
    }
    if is_at_depth(entries, table, action, 1) {
        return Some(1);
    }
    if is_at_depth(entries, table, action, 0) {
        return Some(0);
    }
    None
}

/// Adds what is kept for an action on the table of a number.
#[tactic(auto, unfolding(crate::specs::Entries::kept_at))]
fn add_at(
    kept: &mut Items<RoleEntry>,
    tables: &[Table],
    entries: &[Entry],
    action: Action,
    number: u16,
) -> Result<(), AllocError>
    ensures { OnOk result (kept.new ≡ kept.old ++ kept_at tables.now entries.now action number) }
{
    let Some(table) = at(tables, number as usize) else {
        return Ok(());
    };
    if let Some(depth) = greatest(entries, table, action) {
        kept.push(RoleEntry {
            action,
            table: number,
            depth,
        })?;
    }
    Ok(())
}

/// Adds what is kept for an action.
fn add_for(
    kept: &mut Items<RoleEntry>,
    tables: &[Table],
    entries: &[Entry],
    action: Action,
) -> Result<(), AllocError>
    requires { length tables.now < 65536 }
    ensures { OnOk result (kept.new ≡ kept.old ++ kept_for tables.now entries.now action) }
{
    let count = tables.len() as u16;
    for number in 0..count {
        add_at(kept, tables, entries, action, number)?;
    }
    Ok(())
}

/// Adds what is kept for each of some actions.
fn add_each(
    kept: &mut Items<RoleEntry>,
    tables: &[Table],
    entries: &[Entry],
    actions: &[Action],
) -> Result<(), AllocError>
    requires { length tables.now < 65536 }
    ensures { OnOk result (kept.new
        ≡ kept.old ++ flat_map (kept_for tables.now entries.now) actions.now) }
{
    for action in actions {
        add_for(kept, tables, entries, *action)?;
    }
    Ok(())
}

/// What is kept of a list of entries.
pub(crate) fn spread(
    alloc: Global,
    definition: &Definition,
    entries: &[Entry],
) -> Result<Items<RoleEntry>, AllocError>
    ensures { IfOk result (λ kept. kept ≡ spread (tables_of definition.now) entries.now) }
{
    let mut kept = Items::new(alloc);
    add_each(&mut kept, definition.tables(), entries, &ACTIONS)?;
    Ok(kept)
}
