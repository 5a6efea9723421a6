//! A case: rows of a store, grants on them, and questions about both.
use crate::asking::ask;
use crate::rows::row_of;
use crate::scene::Scene;
use crate::words::{id_of, key_of, table_at, words_of};
use case_notation::{Answers, Case, Fault, found};
use dv_store::RowKey;
use dv_value::Id;
use std::alloc::Global;

/// The cases of cascades.
pub struct Stories;

impl Answers for Stories {
    fn answer(&self, rt: &HostRuntime, case: &Case<'_>) -> Result<String, Fault> {
        let Some((first, lines)) = case.input.as_slice().split_first() else {
            return Err(Fault::Wrong("no line"));
        };
        let name = found(first.strip_prefix("over "), "no definition")?;
        let mut scene = Scene::read(rt, name)?;
        do_lines(rt.alloc(), &mut scene, lines)
    }
}

// Does what a line of a case says, or tells the answer to its question.
fn do_line(alloc: Global, scene: &mut Scene, line: &str, out: &mut String) -> Result<(), Fault> {
    match line.split_once(' ') {
        Some((">", row)) => put_row(alloc, scene, row),
        Some(("chain", chain)) => put_chain(alloc, scene, chain),
        Some(("grant", grant)) => tell_limit(grant_rights(alloc, scene, grant)?, out),
        Some(("grants", grants)) => tell_limit(grant_to_many(alloc, scene, grants)?, out),
        Some(("reparent", row)) => tell_limit(reparent_row(alloc, scene, row)?, out),
        Some(("?", question)) => tell(alloc, scene, question, out),
        _ => Err(Fault::Wrong("no mark of a case")),
    }
}

// Tells a change that a limit refused.
fn tell_limit(was_made: bool, out: &mut String) -> Result<(), Fault> {
    if !was_made {
        out.push_str("limit\n")?;
    }
    Ok(())
}

// Does what the lines of a case say.
fn do_lines(alloc: Global, scene: &mut Scene, lines: &[&str]) -> Result<String, Fault> {
    let mut out = String::new(alloc);
    for line in lines {
        do_line(alloc, scene, line, &mut out)?;
    }
    Ok(out)
}

// Grants rights on a row: the row, the principal and the rights.
fn grant_rights(alloc: Global, scene: &mut Scene, grant: &str) -> Result<bool, Fault> {
    let words = words_of(alloc, grant)?;
    let [row, principal, rights] = words.as_slice() else {
        return Err(Fault::Wrong("no grant"));
    };
    let target = key_of(scene.definition(), row)?;
    scene.grant(alloc, target, id_of(principal)?, rights.parse::<u32>()?)
}

// Grants the right 1 on a row to principals with ascending ids.
fn grant_to_many(alloc: Global, scene: &mut Scene, grants: &str) -> Result<bool, Fault> {
    let words = words_of(alloc, grants)?;
    let [row, first, count] = words.as_slice() else {
        return Err(Fault::Wrong("no grants"));
    };
    let target = key_of(scene.definition(), row)?;
    let mut principal = id_of(first)?;
    for _ in 0..count.parse::<u32>()? {
        if !scene.grant(alloc, target, principal, 1)? {
            return Ok(false);
        }
        principal = Id(principal.0.saturating_add(1));
    }
    Ok(true)
}

// Lets a row with another parent inherit anew.
fn reparent_row(alloc: Global, scene: &mut Scene, row: &str) -> Result<bool, Fault> {
    let moved = key_of(scene.definition(), row)?;
    scene.reparent(alloc, moved)
}

// Puts a row of words.
fn put_row(alloc: Global, scene: &mut Scene, row: &str) -> Result<(), Fault> {
    let words = words_of(alloc, row)?;
    let Some((first, values)) = words.as_slice().split_first() else {
        return Err(Fault::Wrong("no row"));
    };
    let key = key_of(scene.definition(), first)?;
    put_at(alloc, scene, key, values)
}

// Puts a row with values of words.
fn put_at(alloc: Global, scene: &mut Scene, key: RowKey, values: &[&str]) -> Result<(), Fault> {
    let row = row_of(alloc, table_at(scene.definition(), key.table)?, values)?;
    scene.put(key, row)
}

// Puts rows of a table with ascending ids, each of which names the one before it in a column.
fn put_chain(alloc: Global, scene: &mut Scene, chain: &str) -> Result<(), Fault> {
    let words = words_of(alloc, chain)?;
    let [table, column, first, count] = words.as_slice() else {
        return Err(Fault::Wrong("no chain"));
    };
    let table = found(scene.definition().table(table), "no table")?;
    let mut id = id_of(first)?;
    let mut link = String::new(alloc);
    for _ in 0..count.parse::<u32>()? {
        put_at(alloc, scene, RowKey { table, id }, &[link.as_str()])?;
        link.clear();
        write!(link, "{column}=#{}", id.0)?;
        id = Id(id.0.saturating_add(1));
    }
    Ok(())
}

// The answer to a question, or `none` where it has no words.
fn tell(alloc: Global, scene: &Scene, question: &str, out: &mut String) -> Result<(), Fault> {
    let words = words_of(alloc, question)?;
    let mut answer = String::new(alloc);
    ask(alloc, scene, words.as_slice(), &mut answer)?;
    match answer.as_str().strip_prefix(' ') {
        Some(answer) => out.push_str(answer)?,
        None => out.push_str("none")?,
    }
    Ok(out.push('\n')?)
}
