//! The lines that change a store.
use crate::rows::{row_of, value_of};
use crate::scene::{Scene, column_of, id_of};
use crate::sharing::{reshare, share, unshare};
use case_notation::Fault;
use dv_refusal::What;
use dv_store::{RowKey, StoreFault};
use dv_value::{Id, Value};

/// Changes a store as words say, or tells the limit that refuses it.
pub fn change(scene: &mut Scene<'_>, words: &[&str]) -> Result<Option<What>, Fault> {
    let Some((word, rest)) = words.split_first() else {
        return Err(Fault::Wrong("no change"));
    };
    match *word {
        "put" => put(scene, rest),
        "puts" => puts(scene, rest),
        "remove" => remove(scene, rest),
        "rollup" => rollup(scene, rest),
        "grant" => grant(scene, rest),
        "grants" => grants(scene, rest),
        "share" => share(scene, rest),
        "unshare" => unshare(scene, rest),
        "reshare" => reshare(scene, rest),
        _ => change_state(scene, word, rest),
    }
}

// The changes of counters, and those of which states there are.
fn change_state(scene: &mut Scene<'_>, word: &str, rest: &[&str]) -> Result<Option<What>, Fault> {
    match (word, rest) {
        ("bump", []) => bump(scene),
        ("id", []) => fresh_id(scene),
        ("forget", []) => forget(scene),
        ("floor", [floor]) => raise_floor(scene, floor),
        ("undo", [mark]) => undo_to(scene, mark),
        _ => Err(Fault::Wrong("no change")),
    }
}

/// The limit that refused a change, if it was refused.
pub fn limit_of(outcome: Result<(), StoreFault>) -> Result<Option<What>, Fault> {
    match outcome {
        Ok(()) => Ok(None),
        Err(StoreFault::Limit(what)) => Ok(Some(what)),
        Err(StoreFault::OutOfMemory) => Err(Fault::OutOfMemory),
    }
}

fn put(scene: &mut Scene<'_>, words: &[&str]) -> Result<Option<What>, Fault> {
    let [table, id, values @ ..] = words else {
        return Err(Fault::Wrong("no row to put"));
    };
    let number = scene.table(table)?;
    let id = id_of(id)?;
    let row = row_of(scene.alloc, scene.table_at(number)?, values)?;
    limit_of(scene.store.put_row(number, id, row))
}

// Puts rows with nothing in them, with ascending ids.
fn puts(scene: &mut Scene<'_>, words: &[&str]) -> Result<Option<What>, Fault> {
    let [table, first, count] = words else {
        return Err(Fault::Wrong("no rows to put"));
    };
    let number = scene.table(table)?;
    let mut id = id_of(first)?;
    for _ in 0..number_of(count)? {
        let row = row_of(scene.alloc, scene.table_at(number)?, &[])?;
        let refused = limit_of(scene.store.put_row(number, id, row))?;
        if refused.is_some() {
            return Ok(refused);
        }
        id = Id(id.0.saturating_add(1));
    }
    Ok(None)
}

fn remove(scene: &mut Scene<'_>, words: &[&str]) -> Result<Option<What>, Fault> {
    let [table, id] = words else {
        return Err(Fault::Wrong("no row to remove"));
    };
    let number = scene.table(table)?;
    let id = id_of(id)?;
    if scene.store.row(number, id).is_none() {
        return Err(Fault::Wrong("no row to remove"));
    }
    scene.store.remove_row(number, id)?;
    Ok(None)
}

// A number of a word.
fn number_of(word: &str) -> Result<u32, Fault> {
    Ok(word.parse::<u32>()?)
}

fn grant(scene: &mut Scene<'_>, words: &[&str]) -> Result<Option<What>, Fault> {
    let [table, id, principal, direct, inherited] = words else {
        return Err(Fault::Wrong("no grant"));
    };
    let row = scene.row_key(table, id)?;
    let principal = id_of(principal)?;
    let direct = number_of(direct)?;
    let inherited = number_of(inherited)?;
    set_grant(scene, row, principal, direct, inherited)
}

fn set_grant(
    scene: &mut Scene<'_>,
    row: RowKey,
    principal: Id,
    direct: u32,
    inherited: u32,
) -> Result<Option<What>, Fault> {
    let store = &mut scene.store;
    if store.row(row.table, row.id).is_none() || !store.is_owned(row.table) {
        return Err(Fault::Wrong("no row to grant rights on"));
    }
    limit_of(store.set_grant(row.table, row.id, principal, direct, inherited))
}

// Grants a right on a row to principals with ascending ids.
fn grants(scene: &mut Scene<'_>, words: &[&str]) -> Result<Option<What>, Fault> {
    let [table, id, first, count] = words else {
        return Err(Fault::Wrong("no grants"));
    };
    let row = scene.row_key(table, id)?;
    let mut principal = id_of(first)?;
    for _ in 0..number_of(count)? {
        let refused = set_grant(scene, row, principal, 1, 0)?;
        if refused.is_some() {
            return Ok(refused);
        }
        principal = Id(principal.0.saturating_add(1));
    }
    Ok(None)
}

fn rollup(scene: &mut Scene<'_>, words: &[&str]) -> Result<Option<What>, Fault> {
    let [table, id, column, value, state, date] = words else {
        return Err(Fault::Wrong("no rollup"));
    };
    let row = scene.row_key(table, id)?;
    let column = column_of(scene.table_at(row.table)?, column)?;
    let value = rollup_value(scene, row, column, value)?;
    let state = state.parse::<i32>()?;
    let date = date.parse::<i64>()?;
    if scene.store.row(row.table, row.id).is_none() {
        return Err(Fault::Wrong("no row with a rollup"));
    }
    scene.store.set_rollup(row, column, value, state, date)?;
    Ok(None)
}

// The value of a word for a column of a row.
fn rollup_value(scene: &Scene<'_>, row: RowKey, column: u16, value: &str) -> Result<Value, Fault> {
    let table = scene.table_at(row.table)?;
    match table.columns.get(usize::from(column)) {
        Some(column) => value_of(scene.alloc, &column.kind, value),
        None => Err(Fault::Wrong("no column")),
    }
}

fn raise_floor(scene: &mut Scene<'_>, floor: &str) -> Result<Option<What>, Fault> {
    let floor = floor.parse::<u64>()?;
    let numbers = scene.store.numbers();
    if floor < numbers.floor || floor > numbers.version {
        return Err(Fault::Wrong("no floor to raise to"));
    }
    scene.store.raise_floor(floor)?;
    Ok(None)
}

fn bump(scene: &mut Scene<'_>) -> Result<Option<What>, Fault> {
    match scene.store.bump() {
        Ok(version) if version == scene.store.numbers().version => Ok(None),
        Ok(_) => Err(Fault::Wrong("another version than the counter's")),
        Err(StoreFault::Limit(what)) => Ok(Some(what)),
        Err(StoreFault::OutOfMemory) => Err(Fault::OutOfMemory),
    }
}

fn fresh_id(scene: &mut Scene<'_>) -> Result<Option<What>, Fault> {
    match scene.store.fresh_id() {
        Ok(id) if id.0 == u128::from(scene.store.numbers().last_id) => Ok(None),
        Ok(_) => Err(Fault::Wrong("another id than the counter's")),
        Err(StoreFault::Limit(what)) => Ok(Some(what)),
        Err(StoreFault::OutOfMemory) => Err(Fault::OutOfMemory),
    }
}

fn forget(scene: &mut Scene<'_>) -> Result<Option<What>, Fault> {
    scene.store.forget();
    Ok(None)
}

fn undo_to(scene: &mut Scene<'_>, mark: &str) -> Result<Option<What>, Fault> {
    undo(scene, mark.parse::<usize>()?)
}

/// Goes back to a mark.
pub fn undo(scene: &mut Scene<'_>, mark: usize) -> Result<Option<What>, Fault> {
    if mark > scene.store.mark() {
        return Err(Fault::Wrong("no mark to go back to"));
    }
    scene.store.undo_to(mark);
    Ok(None)
}
