//! Which rollups have to be calculated.
ghost use Rattle.std.specs.Prelude.{◌≡◌, ◌∷◌, [], true, OnOk, OnErr};
ghost use Rattle.dv_work.specs.History.{with_present};
ghost use Rattle.dv_store.specs.World.{fed, fed_at, fed_in, own, own_of, own_unless};
ghost use Rattle.dv_store.specs.Kept.{with_marks};

use crate::cells::Cells;
use crate::keys::{DirtyKey, Key, Place, RowKey};
use crate::listing::present_if;
use crate::shape::Feed;
use dv_value::Id;
use std::alloc::AllocError;

impl Cells {
    /// Marks a rollup dirty, or not dirty.
    pub fn set_dirty(&mut self, key: DirtyKey, present: bool) -> Result<(), AllocError>
        ensures ok { OnOk result (self.new
            ≡ with_present self.old (with_marks self.old.present present (key ∷ []))) }
        ensures err { OnErr result (self.new ≡ self.old) }
    {
        self.amend(Key::At(Place::Dirty(key)), present_if(present))
    }
}

/// Marks the rollup of a feed dirty at the row that is named, where that row is there.
fn mark_at(cells: &mut Cells, feed: Feed, parent: Option<Id>) -> Result<(), AllocError>
    ensures ok { OnOk result (cells.new ≡ with_present cells.old
        (with_marks cells.old.present true (fed_at cells.old.present.world.rows feed parent))) }
    ensures err { OnErr result (cells.new ≡ cells.old) }
{
    let Some(parent) = parent else {
        return Ok(());
    };
    let row = RowKey {
        table: feed.parent,
        id: parent,
    };
    if cells.has_row(row) {
        let key = DirtyKey {
            row,
            column: feed.column,
        };
        return cells.set_dirty(key, true);
    }
    Ok(())
}

/// Marks the rollup of a feed dirty, if the row of a key goes into it.
fn mark_by(cells: &mut Cells, key: RowKey, feed: Feed) -> Result<(), AllocError>
    ensures ok { OnOk result (cells.new ≡ with_present cells.old (with_marks cells.old.present true
        (fed_in cells.old.present.world.rows key feed))) }
    ensures err { OnErr result (cells.new ≡ cells.old) }
{
    if feed.child == key.table {
        let parent = cells.named(key, feed.place);
        return mark_at(cells, feed, parent);
    }
    Ok(())
}

/// Marks the rollups dirty that the row of a key goes into.
pub(crate) fn mark_fed(cells: &mut Cells, key: RowKey) -> Result<(), AllocError>
    ensures ok { OnOk result (cells.new ≡ with_present cells.old (with_marks cells.old.present true
        (fed cells.old.present.world.shape cells.old.present.world.rows key))) }
    ensures err { OnErr result (cells.new.earlier ≡ cells.old.earlier) }
{
    let mut at = 0;
    while at < cells.shape().feeds.len() {
        let feed = cells.shape().feeds.as_slice()[at];
        mark_by(cells, key, feed)?;
        at += 1;
    }
    Ok(())
}

/// Marks the rollup of a feed dirty at a row, or not dirty, if it is one of the row's own.
fn mark_one(cells: &mut Cells, key: RowKey, feed: Feed, present: bool) -> Result<(), AllocError>
    ensures ok { OnOk result (cells.new ≡ with_present cells.old
        (with_marks cells.old.present present (own_of key feed))) }
    ensures err { OnErr result (cells.new ≡ cells.old) }
{
    if feed.parent == key.table {
        let key = DirtyKey {
            row: key,
            column: feed.column,
        };
        return cells.set_dirty(key, present);
    }
    Ok(())
}

/// Marks all rollups of a row dirty, or not dirty.
pub(crate) fn mark_own(cells: &mut Cells, key: RowKey, present: bool) -> Result<(), AllocError>
    ensures ok { OnOk result (cells.new ≡ with_present cells.old (with_marks cells.old.present
        present (own cells.old.present.world.shape key))) }
    ensures err { OnErr result (cells.new.earlier ≡ cells.old.earlier) }
{
    let mut at = 0;
    while at < cells.shape().feeds.len() {
        let feed = cells.shape().feeds.as_slice()[at];
        mark_one(cells, key, feed, present)?;
        at += 1;
    }
    Ok(())
}

/// Marks all rollups of a row dirty, unless it was there before.
pub(crate) fn mark_new(cells: &mut Cells, key: RowKey, there: bool) -> Result<(), AllocError>
    ensures ok { OnOk result (cells.new ≡ with_present cells.old (with_marks cells.old.present
        true (own_unless there cells.old.present.world.shape key))) }
    ensures err { OnErr result (cells.new.earlier ≡ cells.old.earlier) }
{
    if there {
        return Ok(());
    }
    mark_own(cells, key, true)
}
