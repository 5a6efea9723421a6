//! What a row names.
ghost use Rattle.std.specs.Prelude.{◌≡◌};
ghost use Rattle.std.specs.FinMap as map;
ghost use Rattle.dv_store.specs.World.{named_at, named_in};

use crate::cells::Cells;
use crate::keys::RowKey;
use crate::row::Row;
use dv_value::{Id, Value};

/// The place of the owner among the values of a row, on a table whose rows have owners.
pub const OWNER_PLACE: usize = 4;

/// The id that the value at a place of a row names, if it is a reference.
pub fn named_at(row: &Row, place: usize) -> Option<Id>
    ensures { result ≡ named_at row.now place }
{
    match row.values.get(place) {
        Some(Value::Ref(id)) => Some(*id),
        _ => None,
    }
}

impl Cells {
    /// The id that the row of a key, if it is there, names at a place.
    pub fn named(&self, key: RowKey, place: u16) -> Option<Id>
        ensures { result ≡ named_in (map.get self.now.present.world.rows key) place }
    {
        match self.row(key) {
            Some(row) => named_at(row, usize::from(place)),
            None => None,
        }
    }
}
