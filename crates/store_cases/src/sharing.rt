//! The lines that share a row, take that back or change it, with the rows that go with it.
use crate::changing::limit_of;
use crate::scene::{Scene, id_of};
use case_notation::Fault;
use dv_refusal::What;
use dv_shares::{grant, modify, revoke};
use dv_store::RowKey;

// The row of a word as `account:#1`.
fn row_in(scene: &Scene<'_>, word: &str) -> Result<RowKey, Fault> {
    match word.split_once(':') {
        Some((table, id)) => scene.row_key(table, id),
        None => Err(Fault::Wrong("no row")),
    }
}

// The rows of words, up to the word `then`.
fn set_of(scene: &Scene<'_>, words: &[&str]) -> Result<Vec<RowKey>, Fault> {
    let mut set = Vec::new(scene.alloc);
    for word in words {
        if *word == "then" {
            break;
        }
        set.push(row_in(scene, word)?)?;
    }
    Ok(set)
}

// The rows of words behind the word `then`.
fn set_behind(scene: &Scene<'_>, words: &[&str]) -> Result<Vec<RowKey>, Fault> {
    let mut set = Vec::new(scene.alloc);
    let mut behind = false;
    for word in words {
        if behind {
            set.push(row_in(scene, word)?)?;
        }
        behind = behind || *word == "then";
    }
    Ok(set)
}

/// Grants rights: behind the row and the principal stands the mask, and then the set.
pub fn share(scene: &mut Scene<'_>, words: &[&str]) -> Result<Option<What>, Fault> {
    let [table, id, principal, mask, rows @ ..] = words else {
        return Err(Fault::Wrong("no share"));
    };
    let target = scene.row_key(table, id)?;
    let principal = id_of(principal)?;
    let mask = mask.parse::<u32>()?;
    let set = set_of(scene, rows)?;
    limit_of(grant(&mut scene.store, set.as_slice(), target, principal, mask))
}

/// Revokes rights: behind the row and the principal stands the set.
pub fn unshare(scene: &mut Scene<'_>, words: &[&str]) -> Result<Option<What>, Fault> {
    let [table, id, principal, rows @ ..] = words else {
        return Err(Fault::Wrong("no share to take back"));
    };
    let target = scene.row_key(table, id)?;
    let principal = id_of(principal)?;
    let set = set_of(scene, rows)?;
    revoke(&mut scene.store, set.as_slice(), target, principal)?;
    Ok(None)
}

/// Modifies rights: behind the row and the principal stands the mask, and then both sets.
pub fn reshare(scene: &mut Scene<'_>, words: &[&str]) -> Result<Option<What>, Fault> {
    let [table, id, principal, mask, rows @ ..] = words else {
        return Err(Fault::Wrong("no share to modify"));
    };
    let target = scene.row_key(table, id)?;
    let principal = id_of(principal)?;
    let mask = mask.parse::<u32>()?;
    let before = set_of(scene, rows)?;
    let after = set_behind(scene, rows)?;
    limit_of(modify(
        &mut scene.store,
        before.as_slice(),
        after.as_slice(),
        target,
        principal,
        mask,
    ))
}
