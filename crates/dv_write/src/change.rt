//! The changes that an effect is made of.

use dv_store::RowKey;
use dv_value::Value;
use sqlite_items::Items;

/// A value for a place among the values of a row.
#[derive(Drop)]
pub struct Placed {
    pub place: usize,
    pub value: Value,
}

/// What is done to a row.
#[derive(Drop)]
pub enum Edit {
    /// These values are put at their places, one after another.
    Set(Items<Placed>),
    /// The row is removed.
    Remove,
}

/// The change of a row.
#[derive(Drop)]
pub struct Change {
    pub key: RowKey,
    pub edit: Edit,
}
