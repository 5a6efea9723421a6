//! Rows with other values at some of their places.
ghost use Rattle.std.specs.Prelude.{◌≡◌, ◌++◌, slice_set, IfOk, OnOk};
ghost use Rattle.dv_store.specs.Rolled.{version_place};
ghost use Rattle.dv_store.specs.Shapes.{is_owned, place_of};
ghost use Rattle.dv_message.specs.Scenes.{setting_of};
ghost use Rattle.dv_message.specs.Versions.{next_version};
ghost use Rattle.dv_write.specs.Effects.{carrying, edited, touched, with_values};

use crate::change::Placed;
use dv_message::{Scene, next_version};
use dv_store::{Row, RowKey, Store};
use dv_value::Value;
use sqlite_items::Items;
use std::alloc::{AllocError, Global};

/// The places of the user and of the moment of a row's last change.
const MODIFIED_BY_PLACE: usize = 2;

const MODIFIED_ON_PLACE: usize = 3;

/// The number of the id among the columns of a table. Rows leave it out of their values.
const ID_NUMBER: usize = 2;

/// The place of a column's value among those of a row.
pub(crate) fn place_of(number: usize) -> usize
    ensures { result ≡ place_of number }
{
    if number > ID_NUMBER {
        number - 1
    } else {
        number
    }
}

/// The place of the version among the values of a table's rows.
pub(crate) fn version_place(store: &Store, table: u16) -> usize
    ensures { result ≡ version_place (is_owned store.now.present.shape table) }
{
    if store.is_owned(table) { 6 } else { 5 }
}

/// The same row.
fn copied(alloc: Global, row: &Row) -> Result<Row, AllocError>
    ensures { IfOk result (λ copy. copy ≡ row.now) }
{
    let mut values = Items::new(alloc);
    for value in row.values.as_slice() {
        values.push(value.copy(alloc)?)?;
    }
    Ok(Row { values })
}

/// Puts a value at a place of a row, if the row has it.
fn put_value(row: &mut Row, place: usize, value: Value)
    ensures { row.new.values ≡ slice_set row.old.values place value }
{
    if place < row.values.len() {
        row.values.set(place, value);
    }
}

/// Puts values at their places.
#[tactic(auto, unfolding(crate::specs::Effects::with_values))]
fn put_values(alloc: Global, row: &mut Row, placed: &[Placed]) -> Result<(), AllocError>
    ensures { OnOk result (row.new.values ≡ with_values row.old.values placed.now) }
{
    for one in placed {
        let value = one.value.copy(alloc)?;
        put_value(row, one.place, value);
    }
    Ok(())
}

/// The row with values put at their places.
pub(crate) fn edited(alloc: Global, placed: &[Placed], row: &Row) -> Result<Row, AllocError>
    ensures { IfOk result (λ new. new ≡ edited placed.now row.now) }
{
    let mut new = copied(alloc, row)?;
    put_values(alloc, &mut new, placed)?;
    Ok(new)
}

/// Lets a row carry the next version.
pub(crate) fn carry_version(store: &Store, key: RowKey, row: &mut Row)
    ensures { row.new ≡ carrying store.now.present key (next_version store.now.present) row.old }
{
    let version = Value::Amount(next_version(store));
    put_value(row, version_place(store, key.table), version);
}

/// Adds the user and the moment of a change.
pub(crate) fn add_touched(placed: &mut Items<Placed>, scene: &Scene<'_>) -> Result<(), AllocError>
    ensures { OnOk result (placed.new ≡ placed.old ++ touched (setting_of scene.now)) }
{
    placed.push(Placed {
        place: MODIFIED_BY_PLACE,
        value: Value::Ref(scene.user),
    })?;
    placed.push(Placed {
        place: MODIFIED_ON_PLACE,
        value: Value::Moment(scene.moment),
    })
}
