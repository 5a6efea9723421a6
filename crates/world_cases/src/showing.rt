//! An accepted definition in lines: one for each table, column, relationship, registration, unit, role, user and team.
use case_notation::without_wrappings;
use dv_meta::{Definition, Opening, Table};
use std::alloc::{AllocError, Global};
use std::fmt::Debug;

/// The lines, in the order of the definition.
pub fn show(alloc: Global, definition: &Definition) -> Result<String, AllocError> {
    let mut out = String::new(alloc);
    for (number, table) in definition.tables().iter().enumerate() {
        show_table(alloc, number, table, &mut out)?;
    }
    show_items("relationship ", definition.relationships(), &mut out)?;
    show_items("registration ", definition.steps(), &mut out)?;
    show_opening(definition.opening(), &mut out)?;
    without_wrappings(alloc, out.as_str())
}

fn show_table(
    alloc: Global,
    number: usize,
    table: &Table,
    out: &mut String,
) -> Result<(), AllocError> {
    write!(out, "table {number} ")?;
    out.push_str(table.name.as_str())?;
    out.push_str(if table.user_owned {
        " user"
    } else {
        " organization"
    })?;
    out.push_str(if table.tracking { " tracking\n" } else { "\n" })?;
    let word = format!(in alloc; "column {number}.")?;
    show_items(word.as_str(), table.columns.as_slice(), out)
}

fn show_opening(opening: &Opening, out: &mut String) -> Result<(), AllocError> {
    writeln!(out, "root #{} admin #{}", opening.root.0, opening.admin.0)?;
    show_items("unit ", opening.units.as_slice(), out)?;
    show_items("role ", opening.roles.as_slice(), out)?;
    show_items("user ", opening.users.as_slice(), out)?;
    show_items("team ", opening.teams.as_slice(), out)
}

// A line for each item: the word, its place in the list, and the item as Rust prints it.
fn show_items<T: Debug>(word: &str, items: &[T], out: &mut String) -> Result<(), AllocError> {
    for (place, item) in items.iter().enumerate() {
        writeln!(out, "{word}{place} {item:?}")?;
    }
    Ok(())
}
