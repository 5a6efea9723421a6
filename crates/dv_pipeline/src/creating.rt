//! The creation of a row: it is checked, then made.
ghost use Rattle.std.specs.Prelude.{◌≡◌, IfOk, OnOk, OnErr, IfErr, None, Some, Ok, Err, false, slice_get};
ghost use Rattle.dv_work.specs.History.{Extends};
ghost use Rattle.dv_schema.specs.Definitions.{tables_of};
ghost use Rattle.dv_cascade.specs.Sound.{IsSoundWorld};
ghost use Rattle.dv_message.specs.Checked.{Answers};
ghost use Rattle.dv_pipeline.specs.Creating.{creating, system_values, new_row, created, limit_fault, has_no_id, new_id, IsCreated, CreationLimit, RunsCreating, IsLimit};
ghost use Rattle.dv_refusal.specs.declared.refusal.Refusal.{Refusal as Answer};
ghost use Rattle.dv_message.specs.declared.stop.Stop.TheVariants.{Refused};

use crate::creation::{CREATION_CHECKS, Creation};
use dv_message::{Stop, namings, next_version, own_columns, own_values, stop_of};
use dv_request::Reply;
use dv_store::{Row, RowKey, Store};
use dv_value::{Id, Value};
use dv_write::settle;
use sqlite_items::Items;
use std::alloc::{AllocError, Global};

/// The values that the service keeps of a new row.
fn system_values(
    alloc: Global,
    creation: &Creation<'_>,
    store: &Store,
) -> Result<Items<Value>, AllocError>
    ensures { IfOk result (λ values. values
        ≡ system_values (creating store.now creation.now)) }
{
    let maker = creation.scene.user;
    let mut values = Items::new(alloc);
    values.push(Value::Ref(maker))?;
    values.push(Value::Moment(creation.scene.moment))?;
    values.push(Value::Ref(creation.scene.user))?;
    values.push(Value::Moment(creation.scene.moment))?;
    if let Some(owner) = creation.owner(alloc)? {
        values.push(Value::Ref(owner))?;
    }
    values.push(Value::Choice(0))?;
    values.push(Value::Amount(next_version(store)))?;
    Ok(values)
}

/// The new row: the values that the service keeps, and behind them those of the definition's columns.
#[tactic(auto, unfolding(crate::specs::Creating::new_row))]
fn new_row(alloc: Global, creation: &Creation<'_>, store: &Store) -> Result<Row, AllocError>
    ensures { IfOk result (λ row. row ≡ new_row (creating store.now creation.now)) }
{
    let mut values = system_values(alloc, creation, store)?;
    let own = own_values(alloc, own_columns(creation.table), creation.values)?;
    values.append(own)?;
    Ok(Row { values })
}

/// Puts the row, gives out its version and, where no id was chosen, its id. A part of this may be done on an `Err`.
fn attempt(store: &mut Store, creation: &Creation<'_>, id: Id, row: Row) -> Result<(), Stop>
    requires row { row ≡ new_row (creating store.old creation.now) }
    requires id { id ≡ new_id (creating store.old creation.now) }
    requires left { has_no_id (creating store.old creation.now) ≡ false }
    ensures ok { OnOk result (store.new.present ≡ created (creating store.old creation.now)) }
    ensures within { OnOk result (limit_fault (creating store.old creation.now) ≡ None) }
    ensures err { IfErr result (IsLimit (creating store.old creation.now)) }
    ensures extends { Extends store.old store.new }
{
    if let Err(fault) = store.put_row(creation.number, id, row) {
        return Err(stop_of(fault));
    }
    if let Err(fault) = store.bump() {
        return Err(stop_of(fault));
    }
    if creation.chosen.is_some() {
        return Ok(());
    }
    match store.fresh_id() {
        Ok(_) => Ok(()),
        Err(fault) => Err(stop_of(fault)),
    }
}

/// Puts the row, and where it has a parent, hands that on. A part of this may be done on an `Err`.
fn place(
    alloc: Global,
    store: &mut Store,
    creation: &Creation<'_>,
    id: Id,
    row: Row,
) -> Result<(), Stop>
    requires row { row ≡ new_row (creating store.old creation.now) }
    requires id { id ≡ new_id (creating store.old creation.now) }
    requires left { has_no_id (creating store.old creation.now) ≡ false }
    requires sound { IsSoundWorld creation.now.scene.definition.now
        (created (creating store.old creation.now)) }
    ensures ok { OnOk result
        (IsCreated (creating store.old creation.now) store.new.present) }
    ensures limit { Answers (CreationLimit (creating store.old creation.now)) result }
    ensures extends { Extends store.old store.new }
    ensures shape { OnOk result (store.new.present.shape ≡ store.old.present.shape) }
    ensures sound { OnOk result
        (IsSoundWorld creation.now.scene.definition.now store.new.present) }
{
    match attempt(store, creation, id, row) {
        Ok(()) => {}
        Err(stop) => return Err(stop),
    }
    let key = RowKey {
        table: creation.number,
        id,
    };
    settle(alloc, store, creation.scene.definition, key, None)
}

/// The same, whole or not at all.
fn make(
    alloc: Global,
    store: &mut Store,
    creation: &Creation<'_>,
    id: Id,
    row: Row,
) -> Result<(), Stop>
    requires row { row ≡ new_row (creating store.old creation.now) }
    requires id { id ≡ new_id (creating store.old creation.now) }
    requires left { has_no_id (creating store.old creation.now) ≡ false }
    requires sound { IsSoundWorld creation.now.scene.definition.now
        (created (creating store.old creation.now)) }
    ensures ok { OnOk result
        (IsCreated (creating store.old creation.now) store.new.present) }
    ensures limit { Answers (CreationLimit (creating store.old creation.now)) result }
    ensures extends { OnOk result (Extends store.old store.new) }
    ensures shape { OnOk result (store.new.present.shape ≡ store.old.present.shape) }
    ensures sound { OnOk result
        (IsSoundWorld creation.now.scene.definition.now store.new.present) }
    ensures kept { OnErr result (store.new ≡ store.old) }
{
    let start = store.mark();
    match place(alloc, store, creation, id, row) {
        Ok(()) => Ok(()),
        Err(stop) => {
            store.undo_to(start);
            Err(stop)
        }
    }
}

/// Makes a row, if each check passes and no limit is passed. Where the row has a parent and this is handed on, it inherits.
/// The links of the store are sound, and they stay so. The table is the one that the definition has at its number.
pub(crate) fn create(
    alloc: Global,
    store: &mut Store,
    creation: &Creation<'_>,
) -> Result<Reply, Stop>
    requires sound { IsSoundWorld creation.now.scene.definition.now store.old.present }
    requires table { slice_get (tables_of creation.now.scene.definition.now) creation.now.number
        ≡ Some creation.now.table.now }
    ensures ok { IfOk result (λ reply.
        RunsCreating (creating store.old creation.now) store.new.present (Ok reply)) }
    ensures refused { (refusal : Answer) → result ≡ Err (Refused refusal)
        → RunsCreating (creating store.old creation.now) store.old.present (Err refusal) }
    ensures extends { OnOk result (Extends store.old store.new) }
    ensures shape { OnOk result (store.new.present.shape ≡ store.old.present.shape) }
    ensures sound { OnOk result
        (IsSoundWorld creation.now.scene.definition.now store.new.present) }
    ensures kept { OnErr result (store.new ≡ store.old) }
{
    let row = new_row(alloc, creation, store)?;
    let columns = creation.table.columns.as_slice();
    let named = namings(alloc, creation.scene.definition, columns, creation.values)?;
    match creation.judge_all(alloc, &row, named.as_slice(), store, &CREATION_CHECKS) {
        Ok(()) => {}
        Err(stop) => return Err(stop),
    }
    let id = creation.id(store);
    match make(alloc, store, creation, id, row) {
        Ok(()) => Ok(Reply::Created { id }),
        Err(stop) => Err(stop),
    }
}
