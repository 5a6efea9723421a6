//! The changes of a deletion: rows go, and rows outside lose their lookups of them.
ghost use Rattle.std.specs.Prelude.{◌≡◌, ◌==◌, map, drop, IfOk, if◌then◌else◌};
ghost use Rattle.std.specs.List.{prefix_len};
ghost use Rattle.dv_store.specs.Keys.{is_row};
ghost use Rattle.dv_message.specs.Scenes.{setting_of};
ghost use Rattle.dv_write.specs.Deleting.{emptied};
ghost use Rattle.dv_write.specs.Losing.{edit_of, first_row, lesser, AreChanges, AreOrdered};

use crate::change::{Change, Edit, Placed};
use crate::editing::{add_touched, place_of};
use crate::reached::is_row;
use dv_cascade::LookupKey;
use dv_message::Scene;
use dv_store::RowKey;
use dv_value::Value;
use sqlite_items::Items;
use std::alloc::{AllocError, Global};
use std::cmp::Ordering;

/// The lesser of two rows.
fn lesser(a: RowKey, b: RowKey) -> RowKey
    ensures { result ≡ lesser a b }
{
    match a.cmp(&b) {
        Ordering::Less => a,
        _ => b,
    }
}

/// The first row of both lists.
#[tactic(auto, unfolding(crate::specs::Losing::first_row))]
fn first_row(rows: &[RowKey], lookups: &[LookupKey]) -> Option<RowKey>
    ensures { result ≡ first_row rows.now lookups.now }
{
    let Some(row) = rows.first() else {
        return match lookups.first() {
            Some(lookup) => Some(lookup.row),
            None => None,
        };
    };
    match lookups.first() {
        Some(lookup) => Some(lesser(*row, lookup.row)),
        None => Some(*row),
    }
}

/// How many lookups at the front of a list are a row's.
fn count_of(row: RowKey, lookups: &[LookupKey]) -> usize
    ensures { result ≡ prefix_len (λ lookup. is_row row lookup.row) lookups.now }
{
    for (place, lookup) in lookups.iter().enumerate() {
        if !is_row(row, lookup.row) {
            return place;
        }
    }
    lookups.len()
}

/// Lookups, emptied.
fn emptied(alloc: Global, lookups: &[LookupKey]) -> Result<Items<Placed>, AllocError>
    ensures { IfOk result (λ placed. placed ≡ map emptied lookups.now) }
{
    let mut placed = Items::new(alloc);
    for lookup in lookups {
        placed.push(Placed {
            place: place_of(usize::from(lookup.column)),
            value: Value::Empty,
        })?;
    }
    Ok(placed)
}

/// What a deletion does to a row that loses these lookups. One that loses none goes.
#[tactic(auto, unfolding(crate::specs::Losing::edit_of))]
fn edit_of(alloc: Global, scene: &Scene<'_>, lookups: &[LookupKey]) -> Result<Edit, AllocError>
    ensures { IfOk result (λ edit. edit ≡ edit_of (setting_of scene.now) lookups.now) }
{
    if lookups.is_empty() {
        return Ok(Edit::Remove);
    }
    let mut placed = emptied(alloc, lookups)?;
    add_touched(&mut placed, scene)?;
    Ok(Edit::Set(placed))
}

/// The rows behind the first, unless lookups of another row come before it.
fn rows_behind<'a>(rows: &'a [RowKey], count: usize) -> &'a [RowKey]
    ensures { result.now ≡ drop (if count == 0 then 1 else 0) rows.now }
{
    if count > 0 {
        return rows;
    }
    match rows.split_first() {
        Some((_, behind)) => behind,
        None => rows,
    }
}

/// The changes of a deletion, by table and id: rows go, and the rows of lookups lose these. One walk over both lists.
pub(crate) fn losses(
    alloc: Global,
    scene: &Scene<'_>,
    set: &[RowKey],
    lookups: &[LookupKey],
) -> Result<Items<Change>, AllocError>
    requires { AreOrdered set.now lookups.now }
    ensures { IfOk result (AreChanges (setting_of scene.now) set.now lookups.now) }
{
    let mut changes = Items::new(alloc);
    let mut rows = set;
    let mut left = lookups;
    'rows: while let Some(row) = first_row(rows, left) {
        let count = count_of(row, left);
        let (lost, behind) = left.split_at(count);
        changes.push(Change {
            key: row,
            edit: edit_of(alloc, scene, lost)?,
        })?;
        rows = rows_behind(rows, count);
        left = behind;
    }
    Ok(changes)
}
