//! The lists of the rows that name an id: those of an owner, and those of a parent.
ghost use Rattle.std.specs.Prelude.{◌≡◌, ◌∷◌, [], flat_map, OnOk, OnErr};
ghost use Rattle.std.specs.FinMap as map;
ghost use Rattle.dv_work.specs.History.{with_present};
ghost use Rattle.dv_store.specs.Kept.{entry_at, entry_by, entry_of, entries_of, present_if, with_listed};

use crate::cells::Cells;
use crate::item::Item;
use crate::keys::{By, Entry, Key, Listing, RowKey};
use crate::reading::OWNER_PLACE;
use crate::shape::Link;
use dv_value::Id;
use std::alloc::AllocError;

/// The item of what is there and has nothing more to say.
pub(crate) fn present_if(present: bool) -> Option<Item>
    ensures { result ≡ present_if present }
{
    if present { Some(Item::Present) } else { None }
}

impl Cells {
    /// Puts a row into a list, or takes it out.
    pub fn set_listed(&mut self, entry: Entry, present: bool) -> Result<(), AllocError>
        ensures ok { OnOk result (self.new
            ≡ with_present self.old (with_listed self.old.present present (entry ∷ []))) }
        ensures err { OnErr result (self.new ≡ self.old) }
    {
        self.amend(Key::In(entry), present_if(present))
    }
}

/// Puts the row of a key into the list of the id that it names at a place, or takes it out.
fn list_named(
    cells: &mut Cells,
    key: RowKey,
    place: u16,
    of: Option<Id>,
    present: bool,
) -> Result<(), AllocError>
    ensures ok { OnOk result (cells.new ≡ with_present cells.old
        (with_listed cells.old.present present (entry_by key place of))) }
    ensures err { OnErr result (cells.new ≡ cells.old) }
{
    let Some(of) = of else {
        return Ok(());
    };
    let list = Listing {
        table: key.table,
        by: By::Place(place),
        of,
    };
    cells.set_listed(Entry { list, id: key.id }, present)
}

/// Lists the row of a key by what it names at a place, or takes it from that list.
fn list_at(cells: &mut Cells, key: RowKey, place: u16, present: bool) -> Result<(), AllocError>
    ensures ok { OnOk result (cells.new ≡ with_present cells.old (with_listed cells.old.present
        present (entry_at key (map.get cells.old.present.world.rows key) place))) }
    ensures err { OnErr result (cells.new ≡ cells.old) }
{
    let of = cells.named(key, place);
    list_named(cells, key, place, of, present)
}

/// The same by a relationship, if the row can be its child.
fn list_by(cells: &mut Cells, key: RowKey, link: Link, present: bool) -> Result<(), AllocError>
    ensures ok { OnOk result (cells.new ≡ with_present cells.old (with_listed cells.old.present
        present (entry_of key (map.get cells.old.present.world.rows key) link))) }
    ensures err { OnErr result (cells.new ≡ cells.old) }
{
    if link.child == key.table {
        return list_at(cells, key, link.place, present);
    }
    Ok(())
}

/// Lists the row of a key by all that it looks up, or takes it from these lists.
fn list_links(cells: &mut Cells, key: RowKey, present: bool) -> Result<(), AllocError>
    ensures ok { OnOk result (cells.new ≡ with_present cells.old (with_listed cells.old.present
        present (flat_map (entry_of key (map.get cells.old.present.world.rows key))
        cells.old.present.world.shape.links))) }
    ensures err { OnErr result (cells.new.earlier ≡ cells.old.earlier) }
{
    let mut at = 0;
    while at < cells.shape().links.len() {
        let link = cells.shape().links.as_slice()[at];
        list_by(cells, key, link, present)?;
        at += 1;
    }
    Ok(())
}

/// Lists the row of a key by its owner and by all that it looks up, or takes it from these lists.
#[tactic(auto, using(crate::proofs::Marks::listed_more))]
pub(crate) fn list(cells: &mut Cells, key: RowKey, present: bool) -> Result<(), AllocError>
    ensures ok { OnOk result (cells.new ≡ with_present cells.old (with_listed cells.old.present
        present (entries_of cells.old.present.world.shape key
        (map.get cells.old.present.world.rows key)))) }
    ensures err { OnErr result (cells.new.earlier ≡ cells.old.earlier) }
{
    list_at(cells, key, OWNER_PLACE as u16, present)?;
    list_links(cells, key, present)
}
