//! What the cursors of a store give, one after the other, each behind a blank.
use crate::scene::Scene;
use dv_store::{DirtyKey, Store};
use dv_value::Id;
use std::alloc::AllocError;

/// The rows of a table.
pub fn rows(
    store: &Store,
    table: u16,
    start: Option<Id>,
    out: &mut String,
) -> Result<(), AllocError> {
    let mut after = start;
    for _ in 0..u64::MAX {
        let Some(id) = store.row_after(table, after) else {
            break;
        };
        write!(out, " #{}", id.0)?;
        after = Some(id);
    }
    Ok(())
}

/// How many rows a table has.
pub fn count(store: &Store, table: u16) -> u64 {
    let mut after = None;
    let mut count: u64 = 0;
    for _ in 0..u64::MAX {
        let Some(id) = store.row_after(table, after) else {
            break;
        };
        count = count.saturating_add(1);
        after = Some(id);
    }
    count
}

/// The rows of a table that an id owns.
pub fn owned(
    store: &Store,
    table: u16,
    owner: Id,
    start: Option<Id>,
    out: &mut String,
) -> Result<(), AllocError> {
    let mut after = start;
    for _ in 0..u64::MAX {
        let Some(id) = store.owned_after(table, owner, after) else {
            break;
        };
        write!(out, " #{}", id.0)?;
        after = Some(id);
    }
    Ok(())
}

/// The rows of a table on which a principal has a grant, each with its rights joined.
pub fn shared(
    store: &Store,
    table: u16,
    principal: Id,
    start: Option<Id>,
    out: &mut String,
) -> Result<(), AllocError> {
    let mut after = start;
    for _ in 0..u64::MAX {
        let Some((id, rights)) = store.shared_after(table, principal, after) else {
            break;
        };
        write!(out, " #{}:{rights}", id.0)?;
        after = Some(id);
    }
    Ok(())
}

/// The children of a parent by a relationship.
pub fn children(
    store: &Store,
    relationship: u16,
    parent: Id,
    start: Option<Id>,
    out: &mut String,
) -> Result<(), AllocError> {
    let mut after = start;
    for _ in 0..u64::MAX {
        let Some(id) = store.children_after(relationship, parent, after) else {
            break;
        };
        write!(out, " #{}", id.0)?;
        after = Some(id);
    }
    Ok(())
}

/// The principals that have grants on a row, each with its direct and inherited rights.
pub fn principals(
    store: &Store,
    table: u16,
    id: Id,
    start: Option<Id>,
    out: &mut String,
) -> Result<(), AllocError> {
    let mut after = start;
    for _ in 0..u64::MAX {
        let Some(principal) = store.principal_after(table, id, after) else {
            break;
        };
        let (direct, inherited) = store.grant(table, id, principal);
        write!(out, " #{}:{direct}:{inherited}", principal.0)?;
        after = Some(principal);
    }
    Ok(())
}

/// The removals of a table, each with its version.
pub fn removals(
    store: &Store,
    table: u16,
    start: Option<Id>,
    out: &mut String,
) -> Result<(), AllocError> {
    let mut after = start;
    for _ in 0..u64::MAX {
        let Some((id, version)) = store.removal_after(table, after) else {
            break;
        };
        write!(out, " #{}:{version}", id.0)?;
        after = Some(id);
    }
    Ok(())
}

/// The dirty rollups.
pub fn dirty(scene: &Scene<'_>, out: &mut String) -> Result<(), AllocError> {
    let mut after = None;
    for _ in 0..u64::MAX {
        let Some(key) = scene.store.dirty_after(after) else {
            break;
        };
        out.push(' ')?;
        show_dirty(scene, key, out)?;
        after = Some(key);
    }
    Ok(())
}

/// A dirty rollup, as `account#1.total`.
pub fn show_dirty(scene: &Scene<'_>, key: DirtyKey, out: &mut String) -> Result<(), AllocError> {
    let Some(table) = scene.definition.tables().get(usize::from(key.row.table)) else {
        return write!(out, "?#{}.{}", key.row.id.0, key.column);
    };
    let name = match table.columns.get(usize::from(key.column)) {
        Some(column) => column.name.as_str(),
        None => "?",
    };
    write!(out, "{}#{}.{name}", table.name.as_str(), key.row.id.0)
}
