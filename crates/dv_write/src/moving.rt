//! A row that gets another parent: where that is handed on, it and the rows under it inherit anew.
ghost use Rattle.std.specs.Prelude.{◌≡◌, true, OnOk, OnErr};
ghost use Rattle.dv_work.specs.History.{Extends};
ghost use Rattle.dv_store.specs.Shapes.{is_owned};
ghost use Rattle.dv_cascade.specs.Sound.{IsSoundWorld};
ghost use Rattle.dv_message.specs.Checked.{Answers};
ghost use Rattle.dv_shares.specs.Inheriting.{Reparents};
ghost use Rattle.dv_shares.specs.Outcome.{LimitSays};
ghost use Rattle.dv_write.specs.Moving.{hands_new_parents, is_moved, is_same, Settles};

use dv_cascade::{Cascading, closure, parent_of, parental_of};
use dv_message::{Stop, stop_of};
use dv_schema::{Cascade, Definition};
use dv_shares::reparent;
use dv_store::{RowKey, Store};
use std::alloc::Global;

/// Whether the parental relationship of a table, if it has one, hands new parents on.
fn hands_new_parents(definition: &Definition, table: u16) -> bool
    ensures { result ≡ hands_new_parents definition.now table }
{
    match parental_of(definition, table) {
        Some(relationship) => relationship.reparent != Cascade::NoCascade,
        None => false,
    }
}

/// Whether two rows are the same, or both are missing.
fn is_same(a: Option<RowKey>, b: Option<RowKey>) -> bool
    ensures { result ≡ is_same a b }
{
    match (a, b) {
        (None, None) => true,
        (Some(a), Some(b)) => a == b,
        _ => false,
    }
}

/// Whether a row, which had a parent or none before, has another one now, or none, and this is handed on.
fn is_moved(store: &Store, definition: &Definition, key: RowKey, before: Option<RowKey>) -> bool
    ensures { result ≡ is_moved definition.now key before store.now.present }
{
    if !hands_new_parents(definition, key.table) {
        return false;
    }
    !is_same(before, parent_of(store, definition, key))
}

/// Lets a row that has another parent, and the rows that this reaches, inherit anew.
fn hand_on(
    alloc: Global,
    store: &mut Store,
    definition: &Definition,
    key: RowKey,
) -> Result<(), Stop>
    requires sound { IsSoundWorld definition.now store.old.present }
    requires owned { is_owned store.old.present.shape key.table ≡ true }
    ensures ok { OnOk result (Reparents definition.now key store.old.present store.new.present) }
    ensures limit { Answers (LimitSays (Reparents definition.now key store.old.present)
        store.old.present) result }
    ensures extends { OnOk result (Extends store.old store.new) }
    ensures sound { OnOk result (IsSoundWorld definition.now store.new.present) }
    ensures kept { OnErr result (store.new ≡ store.old) }
{
    let set = closure(alloc, store, definition, Cascading::Reparent, key)?;
    match reparent(alloc, store, definition, set.as_slice(), key) {
        Ok(()) => Ok(()),
        Err(fault) => Err(stop_of(fault)),
    }
}

/// Hands on that a row whose values were set has another parent than before, or one where it had none, or none where it
/// had one. Where the parental relationship of its table hands new parents on, the row and the rows that this reaches
/// inherit anew; else nothing is done. No row is changed.
///
/// `before` is the row that it was under: `dv_cascade::parent_of` it before its values were set, or none for a new row.
/// The links of the store are sound.
///
/// # Errors
///
/// The limit of grants, if it would be passed; or memory ran out. The store is then as it was.
#[tactic(auto, unfolding(crate::specs::Moving::Settles))]
pub fn settle(
    alloc: Global,
    store: &mut Store,
    definition: &Definition,
    key: RowKey,
    before: Option<RowKey>,
) -> Result<(), Stop>
    requires sound { IsSoundWorld definition.now store.old.present }
    ensures ok { OnOk result (Settles definition.now key before
        store.old.present store.new.present) }
    ensures limit { Answers (LimitSays (Settles definition.now key before store.old.present)
        store.old.present) result }
    ensures extends { OnOk result (Extends store.old store.new) }
    ensures shape { OnOk result (store.new.present.shape ≡ store.old.present.shape) }
    ensures rows { OnOk result (store.new.present.rows ≡ store.old.present.rows) }
    ensures sound { OnOk result (IsSoundWorld definition.now store.new.present) }
    ensures kept { OnErr result (store.new ≡ store.old) }
{
    if !is_moved(store, definition, key, before) {
        return Ok(());
    }
    hand_on(alloc, store, definition, key)
}
