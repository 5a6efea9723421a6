//! The cells of rows, whose values are the spellings of the row's values.
ghost use Rattle.std.specs.Prelude.{◌≡◌, ◌∷◌, [], List, ◌++◌, IfOk, OnOk, IsErrOf};
ghost use Rattle.dv_value.specs.declared.value.Value.{Value as AValue};
ghost use Rattle.dv_cells.specs.Bytes.{values_bytes, AreSpelled, IsSpelledAs};
ghost use Rattle.dv_cells.specs.Items.{IsCellOf};
ghost use Rattle.dv_cells.specs.declared.item.Item.{Item as AnItem};

use crate::item::Item;
use crate::keys::read_row;
use dv_store::Row;
use dv_value::{TakeFault, Value, take_value};
use sqlite_items::Items;
use std::alloc::{AllocError, Global};

/// Adds a value at the end.
fn keep(values: &mut Items<Value>, value: Value) -> Result<(), AllocError>
    ensures { OnOk result (values.new ≡ values.old ++ value ∷ []) }
{
    values.push(value)
}

/// The values whose spellings the bytes are.
fn read_values(alloc: Global, bytes: &[u8]) -> Result<Items<Value>, TakeFault>
    ensures read { IfOk result (IsSpelledAs bytes.now) }
    ensures refused { IsErrOf result TakeFault.NotCanonical
        → (values : List AValue) → IsSpelledAs bytes.now values → ⊥ }
{
    let mut values = Items::new(alloc);
    let mut rest = bytes;
    while !rest.is_empty() {
        let (value, len) = match take_value(alloc, rest) {
            Ok(taken) => taken,
            Err(fault) => return Err(fault),
        };
        keep(&mut values, value)?;
        rest = rest.split_at(len).1;
    }
    Ok(values)
}

/// Adds the spellings of values.
pub(crate) fn put_values(
    alloc: Global,
    values: &[Value],
    out: &mut Vec<u8>,
) -> Result<(), AllocError>
    requires { AreSpelled values.now }
    ensures { OnOk result (out.new.items ≡ out.old.items ++ values_bytes values.now) }
{
    for value in values {
        dv_value::put_value(alloc, value, out)?;
    }
    Ok(())
}

#[tactic(auto, unfolding(crate::specs::Items::sheet_of, crate::specs::Items::key_of, crate::specs::Items::value_of, crate::specs::Items::IsItem, crate::specs::Items::HasCell))]
pub(crate) fn row(alloc: Global, key: &[u8], value: &[u8]) -> Result<Item, TakeFault>
    ensures decoded { IfOk result (λ item. IsCellOf 9 key.now value.now item) }
    ensures refused { IsErrOf result TakeFault.NotCanonical
        → (item : AnItem) → IsCellOf 9 key.now value.now item → ⊥ }
{
    let Some(key) = read_row(key) else {
        return Err(TakeFault::NotCanonical);
    };
    match read_values(alloc, value) {
        Ok(values) => Ok(Item::Row {
            key,
            row: Row { values },
        }),
        Err(fault) => Err(fault),
    }
}
