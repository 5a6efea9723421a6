//! The questions about a store.
use crate::listing::{
    children, count, dirty, owned, principals, removals, rows, shared, show_dirty,
};
use crate::rows::show_row;
use crate::scene::{Scene, id_of};
use case_notation::Fault;
use dv_store::Place;
use dv_value::Id;
use std::alloc::AllocError;

/// Writes the answer to a question. The words that it has stand behind a blank each.
pub fn ask(scene: &Scene<'_>, words: &[&str], out: &mut String) -> Result<(), Fault> {
    let Some((word, rest)) = words.split_first() else {
        return Err(Fault::Wrong("no question"));
    };
    match *word {
        "row" => ask_row(scene, rest, out),
        "grant" => ask_grant(scene, rest, out),
        "count" => ask_count(scene, rest, out),
        "changes" => ask_changes(scene, rest, out),
        "rows" | "removals" => ask_table(scene, word, rest, out),
        "dirty" | "numbers" | "mark" => ask_whole(scene, word, rest, out),
        _ => ask_list(scene, word, rest, out),
    }
}

fn ask_row(scene: &Scene<'_>, words: &[&str], out: &mut String) -> Result<(), Fault> {
    let [table, id] = words else {
        return Err(Fault::Wrong("no row to ask for"));
    };
    let key = scene.row_key(table, id)?;
    let Some(row) = scene.store.row(key.table, key.id) else {
        return Ok(());
    };
    let table = scene.table_at(key.table)?;
    out.push_str(" row")?;
    Ok(show_row(table, row, out)?)
}

fn ask_grant(scene: &Scene<'_>, words: &[&str], out: &mut String) -> Result<(), Fault> {
    let [table, id, principal] = words else {
        return Err(Fault::Wrong("no grant to ask for"));
    };
    let row = scene.row_key(table, id)?;
    let principal = id_of(principal)?;
    let (direct, inherited) = scene.store.grant(row.table, row.id, principal);
    Ok(write!(out, " {direct} {inherited}")?)
}

fn ask_count(scene: &Scene<'_>, words: &[&str], out: &mut String) -> Result<(), Fault> {
    let [table] = words else {
        return Err(Fault::Wrong("no table to count"));
    };
    let table = scene.table(table)?;
    let rows = count(&scene.store, table);
    Ok(write!(out, " {rows}")?)
}

// The questions about the whole store.
fn ask_whole(scene: &Scene<'_>, word: &str, words: &[&str], out: &mut String) -> Result<(), Fault> {
    if !words.is_empty() {
        return Err(Fault::Wrong("no question"));
    }
    match word {
        "dirty" => dirty(scene, out)?,
        "numbers" => show_numbers(scene, out)?,
        _ => write!(out, " {}", scene.store.mark())?,
    }
    Ok(())
}

fn show_numbers(scene: &Scene<'_>, out: &mut String) -> Result<(), AllocError> {
    let numbers = scene.store.numbers();
    write!(
        out,
        " version {} id {} floor {}",
        numbers.version, numbers.last_id, numbers.floor
    )
}

// The id that may follow a list: only what is past it is told.
fn past(words: &[&str]) -> Result<Option<Id>, Fault> {
    match words {
        [] => Ok(None),
        [after] => Ok(Some(id_of(after)?)),
        _ => Err(Fault::Wrong("no question")),
    }
}

// The rows or the removals of a table.
fn ask_table(scene: &Scene<'_>, word: &str, words: &[&str], out: &mut String) -> Result<(), Fault> {
    let [table, rest @ ..] = words else {
        return Err(Fault::Wrong("no table to ask for"));
    };
    let table = scene.table(table)?;
    let after = past(rest)?;
    if word == "rows" {
        rows(&scene.store, table, after, out)?;
    } else {
        removals(&scene.store, table, after, out)?;
    }
    Ok(())
}

// A list of rows, or of principals.
fn ask_list(scene: &Scene<'_>, word: &str, words: &[&str], out: &mut String) -> Result<(), Fault> {
    let [list, id, rest @ ..] = words else {
        return Err(Fault::Wrong("no question"));
    };
    let id = id_of(id)?;
    let after = past(rest)?;
    let store = &scene.store;
    match word {
        "owned" => owned(store, scene.table(list)?, id, after, out)?,
        "shared" => shared(store, scene.table(list)?, id, after, out)?,
        "children" => children(store, scene.relationship(list)?, id, after, out)?,
        "principals" => principals(store, scene.table(list)?, id, after, out)?,
        _ => return Err(Fault::Wrong("no question")),
    }
    Ok(())
}

fn ask_changes(scene: &Scene<'_>, words: &[&str], out: &mut String) -> Result<(), Fault> {
    let [mark] = words else {
        return Err(Fault::Wrong("no mark to tell changes of"));
    };
    let mark = mark.parse::<usize>()?;
    if mark > scene.store.mark() {
        return Err(Fault::Wrong("no mark to tell changes of"));
    }
    for place in scene.store.changes_since_mark(mark)?.iter() {
        show_place(scene, *place, out)?;
    }
    Ok(())
}

fn show_place(scene: &Scene<'_>, place: Place, out: &mut String) -> Result<(), AllocError> {
    match place {
        Place::Row(key) => write!(out, " row:{}#{}", key.table, key.id.0),
        Place::Grant(key) => write!(
            out,
            " grant:{}#{}:#{}",
            key.row.table, key.row.id.0, key.principal.0
        ),
        Place::Removal(key) => write!(out, " removal:{}#{}", key.table, key.id.0),
        Place::Dirty(key) => {
            out.push_str(" dirty:")?;
            show_dirty(scene, key, out)
        }
        Place::Counters => out.push_str(" counters"),
    }
}
