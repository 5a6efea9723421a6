//! The places of the world that changed since a mark.
ghost use Rattle.std.specs.Prelude.{◌≡◌, ◌≤◌, ◌++◌, length, IfOk, OnOk};
ghost use Rattle.dv_work.specs.History.{back_at};
ghost use Rattle.dv_store.specs.Changes.{place_in, places_of, AreChanges};

use crate::cells::Cells;
use crate::item::Item;
use crate::keys::{Key, Place};
use std::alloc::{AllocError, Global};
use std::collections::BTreeMap;

/// Adds the place of a key, if it is one of the world.
fn add(key: &Key, places: &mut Vec<Place>) -> Result<(), AllocError>
    ensures { OnOk result (places.new.items ≡ places.old.items ++ place_in key.now) }
{
    if let Key::At(place) = key {
        places.push(*place)?;
    }
    Ok(())
}

/// The places among the keys of a map.
fn places_of(
    alloc: Global,
    touched: &BTreeMap<Key, Option<&Item>>,
) -> Result<Vec<Place>, AllocError>
    ensures { IfOk result (λ places. places.items ≡ places_of touched.now.entries) }
{
    let mut places = Vec::new(alloc);
    for (key, _) in touched {
        add(key, &mut places)?;
    }
    Ok(places)
}

/// The places that were changed since a mark.
pub(crate) fn changes_since(cells: &Cells, mark: usize) -> Result<Vec<Place>, AllocError>
    requires { mark ≤ length cells.now.earlier }
    ensures { IfOk result (λ places.
        AreChanges (back_at cells.now mark).present.world cells.now.present.world places.items) }
{
    let touched = cells.shelf.touched_since(mark)?;
    // `len` says that the keys ascend.
    let _ordered = touched.len();
    let places = places_of(cells.alloc, &touched)?;
    Ok(places)
}
