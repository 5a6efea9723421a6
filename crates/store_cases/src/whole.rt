//! A whole store in words, as all its calls tell it.
use crate::listing::{children, dirty, owned, principals, removals, rows, shared};
use crate::rows::show_row;
use crate::scene::Scene;
use dv_value::Id;
use std::alloc::AllocError;

// The ids of which it is told what names them: those below this number.
const IDS: u32 = 13;

/// All that a store holds: rows, grants, removals, dirty rollups, counters, and the lists of what names an id.
pub fn whole(scene: &Scene<'_>) -> Result<String, AllocError> {
    let mut out = String::new(scene.alloc);
    let mut table: u16 = 0;
    for _ in scene.definition.tables() {
        show_table(scene, table, &mut out)?;
        table = table.saturating_add(1);
    }
    let mut relationship: u16 = 0;
    for _ in scene.definition.relationships() {
        show_children(scene, relationship, &mut out)?;
        relationship = relationship.saturating_add(1);
    }
    out.push_str("dirty")?;
    dirty(scene, &mut out)?;
    let numbers = scene.store.numbers();
    write!(
        out,
        "\nversion {} id {} floor {}\n",
        numbers.version, numbers.last_id, numbers.floor
    )?;
    Ok(out)
}

// The rows of a table, what of them each id owns or has grants on, and its removals.
fn show_table(scene: &Scene<'_>, table: u16, out: &mut String) -> Result<(), AllocError> {
    write!(out, "table {table} rows")?;
    rows(&scene.store, table, None, out)?;
    out.push_str(" removals")?;
    removals(&scene.store, table, None, out)?;
    out.push('\n')?;
    for number in 0..IDS {
        show_id(scene, table, Id(u128::from(number)), out)?;
    }
    Ok(())
}

// The row of an id with its grants, and the rows that it owns or has grants on.
fn show_id(scene: &Scene<'_>, table: u16, id: Id, out: &mut String) -> Result<(), AllocError> {
    write!(out, "#{}", id.0)?;
    show_values(scene, table, id, out)?;
    out.push_str(" granted")?;
    principals(&scene.store, table, id, None, out)?;
    out.push_str(" owns")?;
    owned(&scene.store, table, id, None, out)?;
    out.push_str(" shares")?;
    shared(&scene.store, table, id, None, out)?;
    out.push('\n')
}

// The values of the row of an id, if it is there.
fn show_values(scene: &Scene<'_>, table: u16, id: Id, out: &mut String) -> Result<(), AllocError> {
    let Some(row) = scene.store.row(table, id) else {
        return Ok(());
    };
    match scene.definition.tables().get(usize::from(table)) {
        Some(of) => show_row(of, row, out),
        None => Ok(()),
    }
}

// The children of each id by a relationship.
fn show_children(scene: &Scene<'_>, relationship: u16, out: &mut String) -> Result<(), AllocError> {
    write!(out, "relationship {relationship}")?;
    for number in 0..IDS {
        write!(out, " of #{number}")?;
        let parent = Id(u128::from(number));
        children(&scene.store, relationship, parent, None, out)?;
    }
    out.push('\n')
}
