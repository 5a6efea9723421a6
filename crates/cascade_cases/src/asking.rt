//! The questions about cascades.
use crate::scene::Scene;
use crate::words::{cascading_of, key_of, keys_of, table_at};
use case_notation::Fault;
use dv_cascade::{Cascading, LookupKey};
use dv_meta::Definition;
use dv_store::RowKey;
use std::alloc::Global;

/// Writes the answer to a question. The words that it has stand behind a blank each.
pub fn ask(alloc: Global, scene: &Scene, words: &[&str], out: &mut String) -> Result<(), Fault> {
    match words {
        ["blocks", row] => ask_blocking(alloc, scene, row, out),
        ["empties", rows @ ..] => ask_emptied(alloc, scene, rows, out),
        ["circles", row, parent] => ask_circle(scene, row, parent, out),
        ["grants", row] => {
            let row = key_of(scene.definition(), row)?;
            scene.show_grants(row, out)
        }
        ["granted", row] => {
            let row = key_of(scene.definition(), row)?;
            Ok(write!(out, " {}", scene.count_grants(row))?)
        }
        ["count", word, row] => {
            let rows = reached(alloc, scene, word, row)?;
            Ok(write!(out, " {}", rows.len())?)
        }
        [word, row] => {
            let rows = reached(alloc, scene, word, row)?;
            show_rows(scene.definition(), rows.as_slice(), out)
        }
        _ => Err(Fault::Wrong("no question")),
    }
}

// The rows that what is done to a row reaches.
fn reached(alloc: Global, scene: &Scene, word: &str, row: &str) -> Result<Vec<RowKey>, Fault> {
    let target = key_of(scene.definition(), row)?;
    scene.closure(alloc, cascading_of(word)?, target)
}

fn ask_blocking(alloc: Global, scene: &Scene, row: &str, out: &mut String) -> Result<(), Fault> {
    let target = key_of(scene.definition(), row)?;
    let rows = scene.closure(alloc, Cascading::Delete, target)?;
    let blocking = scene.first_restrict(alloc, rows.as_slice())?;
    show_relationship(scene.definition(), blocking, out)
}

fn ask_emptied(alloc: Global, scene: &Scene, rows: &[&str], out: &mut String) -> Result<(), Fault> {
    let set = keys_of(alloc, scene.definition(), rows)?;
    let lookups = scene.links_to_clear(alloc, set.as_slice())?;
    show_lookups(scene.definition(), lookups.as_slice(), out)
}

fn ask_circle(scene: &Scene, row: &str, parent: &str, out: &mut String) -> Result<(), Fault> {
    let row = key_of(scene.definition(), row)?;
    let parent = key_of(scene.definition(), parent)?;
    let word = if scene.would_circle(row, parent)? {
        " yes"
    } else {
        " no"
    };
    Ok(out.push_str(word)?)
}

// Writes rows as `TABLE#7`.
fn show_rows(definition: &Definition, rows: &[RowKey], out: &mut String) -> Result<(), Fault> {
    for key in rows {
        let table = table_at(definition, key.table)?;
        write!(out, " {}#{}", table.name.as_str(), key.id.0)?;
    }
    Ok(())
}

// Writes lookups as `TABLE#7.COLUMN`.
fn show_lookups(
    definition: &Definition,
    lookups: &[LookupKey],
    out: &mut String,
) -> Result<(), Fault> {
    for lookup in lookups {
        show_lookup(definition, *lookup, out)?;
    }
    Ok(())
}

fn show_lookup(definition: &Definition, lookup: LookupKey, out: &mut String) -> Result<(), Fault> {
    let table = table_at(definition, lookup.row.table)?;
    let Some(column) = table.columns.get(usize::from(lookup.column)) else {
        return Err(Fault::Wrong("no column"));
    };
    let (table, column) = (table.name.as_str(), column.name.as_str());
    Ok(write!(out, " {table}#{}.{column}", lookup.row.id.0)?)
}

// Writes the name of a relationship, if there is one.
fn show_relationship(
    definition: &Definition,
    number: Option<u16>,
    out: &mut String,
) -> Result<(), Fault> {
    let Some(number) = number else {
        return Ok(());
    };
    match definition.relationships().get(usize::from(number)) {
        Some(relationship) => Ok(write!(out, " {}", relationship.name.as_str())?),
        None => Err(Fault::Wrong("no relationship")),
    }
}
