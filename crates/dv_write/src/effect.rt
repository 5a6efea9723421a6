//! The changes of an effect, made whole or not at all.
ghost use Rattle.std.specs.Prelude.{◌≡◌, OnOk, OnErr};
ghost use Rattle.std.specs.Option.{option_or};
ghost use Rattle.std.specs.FinMap as map;
ghost use Rattle.dv_work.specs.History.{Extends};
ghost use Rattle.dv_store.specs.World.{bumped};
ghost use Rattle.dv_message.specs.Checked.{Answers};
ghost use Rattle.dv_write.specs.Effects.{applied, change_limit, changed, first_limit, row_limit, row_changed, row_renewed, total_limit, version_limit};
ghost use Rattle.dv_write.specs.declared.change.Edit.TheVariants as edit;

use crate::change::{Change, Edit, Placed};
use crate::editing::{carry_version, edited};
use dv_message::{Stop, stop_of};
use dv_store::{Row, RowKey, Store};
use std::alloc::Global;

/// Gives out the next version.
fn take_version(store: &mut Store) -> Result<(), Stop>
    ensures ok { OnOk result (store.new.present ≡ bumped store.old.present) }
    ensures limit { Answers (λ said. said ≡ version_limit store.old.present) result }
    ensures extends { Extends store.old store.new }
{
    match store.bump() {
        Ok(_) => Ok(()),
        Err(fault) => Err(stop_of(fault)),
    }
}

/// Puts a row that carries the next version.
fn put_renewed(store: &mut Store, key: RowKey, mut row: Row) -> Result<(), Stop>
    ensures ok { OnOk result (store.new.present ≡ row_renewed store.old.present key row) }
    ensures limit { Answers (λ said. said
        ≡ total_limit (row_renewed store.old.present key row)) result }
    ensures extends { Extends store.old store.new }
{
    carry_version(store, key, &mut row);
    match store.put_row(key.table, key.id, row) {
        Ok(()) => Ok(()),
        Err(fault) => Err(stop_of(fault)),
    }
}

/// Puts a row that carries the next version, and gives that out.
fn renew(store: &mut Store, key: RowKey, row: Row) -> Result<(), Stop>
    ensures ok { OnOk result (store.new.present
        ≡ bumped (row_renewed store.old.present key row)) }
    ensures limit { Answers (λ said. said ≡ option_or
        (total_limit (row_renewed store.old.present key row)) (version_limit store.old.present))
        result }
    ensures extends { Extends store.old store.new }
{
    match put_renewed(store, key, row) {
        Ok(()) => {}
        Err(stop) => return Err(stop),
    }
    take_version(store)
}

/// Changes values of a row, if it is there.
#[tactic(auto, unfolding(crate::specs::Effects::row_limit, crate::specs::Effects::row_changed))]
fn set(alloc: Global, store: &mut Store, key: RowKey, placed: &[Placed]) -> Result<(), Stop>
    ensures ok { OnOk result (store.new.present ≡ row_changed store.old.present key
        (edit.Set placed.now) (map.get store.old.present.rows key)) }
    ensures limit { Answers (λ said. said ≡ row_limit store.old.present key
        (edit.Set placed.now) (map.get store.old.present.rows key)) result }
    ensures extends { Extends store.old store.new }
{
    let Some(row) = store.row(key.table, key.id) else {
        return Ok(());
    };
    let row = edited(alloc, placed, row)?;
    renew(store, key, row)
}

/// Removes a row under the next version, if it is there.
#[tactic(auto, unfolding(crate::specs::Effects::row_limit, crate::specs::Effects::row_changed))]
fn remove(store: &mut Store, key: RowKey) -> Result<(), Stop>
    ensures ok { OnOk result (store.new.present ≡ row_changed store.old.present key
        edit.Remove (map.get store.old.present.rows key)) }
    ensures limit { Answers (λ said. said ≡ row_limit store.old.present key
        edit.Remove (map.get store.old.present.rows key)) result }
    ensures extends { Extends store.old store.new }
{
    if store.row(key.table, key.id).is_none() {
        return Ok(());
    }
    match take_version(store) {
        Ok(()) => {}
        Err(stop) => return Err(stop),
    }
    Ok(store.remove_row(key.table, key.id)?)
}

/// Makes a change.
fn make_one(alloc: Global, store: &mut Store, change: &Change) -> Result<(), Stop>
    ensures ok { OnOk result (store.new.present ≡ changed store.old.present change.now) }
    ensures limit { Answers (λ said. said ≡ change_limit store.old.present change.now) result }
    ensures extends { Extends store.old store.new }
{
    match &change.edit {
        Edit::Set(placed) => set(alloc, store, change.key, placed.as_slice()),
        Edit::Remove => remove(store, change.key),
    }
}

/// Makes the changes of an effect. Some of them may be made on an `Err`.
#[tactic(auto, unfolding(crate::specs::Effects::applied, crate::specs::Effects::first_limit))]
fn make_each(alloc: Global, store: &mut Store, changes: &[Change]) -> Result<(), Stop>
    ensures ok { OnOk result (store.new.present ≡ applied changes.now store.old.present) }
    ensures limit { Answers (λ said. said ≡ first_limit changes.now store.old.present) result }
    ensures extends { Extends store.old store.new }
{
    for change in changes {
        match make_one(alloc, store, change) {
            Ok(()) => {}
            Err(stop) => return Err(stop),
        }
    }
    Ok(())
}

/// Makes the changes of an effect, whole or not at all.
#[tactic(auto, using(crate::proofs::Shapes::applied_shape))]
pub(crate) fn make(alloc: Global, store: &mut Store, changes: &[Change]) -> Result<(), Stop>
    ensures ok { OnOk result (store.new.present ≡ applied changes.now store.old.present) }
    ensures limit { Answers (λ said. said ≡ first_limit changes.now store.old.present) result }
    ensures extends { OnOk result (Extends store.old store.new) }
    ensures shape { OnOk result (store.new.present.shape ≡ store.old.present.shape) }
    ensures kept { OnErr result (store.new ≡ store.old) }
{
    let start = store.mark();
    match make_each(alloc, store, changes) {
        Ok(()) => Ok(()),
        Err(stop) => {
            store.undo_to(start);
            Err(stop)
        }
    }
}
