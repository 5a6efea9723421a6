//! What blocks a removal.
ghost use Rattle.std.specs.Prelude.{◌≡◌, ◌↔◌, IfOk, IsTrue, None, Some, slice_get};
ghost use Rattle.dv_store.specs.Cursors.{IsNext};
ghost use Rattle.dv_store.specs.Keys.{row_key};
ghost use Rattle.dv_store.specs.Shapes.{shape_of};
ghost use Rattle.dv_cascade.specs.Links.{link_of};
ghost use Rattle.dv_cascade.specs.Chains.{is_among};
ghost use Rattle.dv_cascade.specs.Removal.{is_restrict, Blocks, BlocksBy, HasOutside, IsFirst, IsOutside, IsReferredTo};

use crate::found::Found;
use dv_schema::{Cascade, Definition, Relationship};
use dv_store::{RowKey, Store};
use dv_value::Id;
use sqlite_items::at;
use std::alloc::{AllocError, Global};

/// The rows of a list, to be looked up.
pub(crate) fn rows_of(alloc: Global, rows: &[RowKey]) -> Result<Found, AllocError>
    ensures { IfOk result (λ found. (key : RowKey)
        → is_among found key ≡ is_among rows.now key) }
{
    let mut found = Found::new(alloc);
    let mut next: usize = 0;
    'rows: while let Some(row) = at(rows, next) {
        found.add(*row)?;
        next += 1;
    }
    Ok(found)
}

/// The first row outside a set that names a parent by a relationship.
fn child_outside(
    store: &Store,
    relationship: &Relationship,
    number: u16,
    parent: RowKey,
    set: &Found,
) -> Option<Id>
    requires link { slice_get store.now.present.shape.links number
        ≡ Some (link_of relationship.now) }
    requires table { parent.table ≡ relationship.now.parent }
    ensures { IsNext (λ id. IsOutside store.now.present relationship.now set.now parent
        (row_key relationship.now.child id)) None result }
{
    let mut after = None;
    'children: while let Some(id) = store.children_after(number, parent.id, after) {
        let child = RowKey {
            table: relationship.child,
            id,
        };
        if !set.has(child) {
            return Some(id);
        }
        after = Some(id);
    }
    None
}

/// Whether a row outside a set names a parent by a relationship.
fn has_outside(
    store: &Store,
    relationship: &Relationship,
    number: u16,
    parent: RowKey,
    set: &Found,
) -> bool
    requires { slice_get store.now.present.shape.links number ≡ Some (link_of relationship.now) }
    ensures { IsTrue result ↔ HasOutside store.now.present relationship.now set.now parent }
{
    if parent.table != relationship.parent {
        return false;
    }
    match child_outside(store, relationship, number, parent, set) {
        Some(_) => true,
        None => false,
    }
}

/// Whether a row outside a set names a row of it by a relationship.
fn is_referred_to(store: &Store, relationship: &Relationship, number: u16, set: &Found) -> bool
    requires { slice_get store.now.present.shape.links number ≡ Some (link_of relationship.now) }
    ensures { IsTrue result ↔ IsReferredTo store.now.present relationship.now set.now }
{
    let mut next: usize = 0;
    'parents: while let Some(parent) = set.at(next) {
        if has_outside(store, relationship, number, parent, set) {
            return true;
        }
        next += 1;
    }
    false
}

/// Whether a cascade restricts removals.
fn is_restrict(cascade: Cascade) -> bool
    ensures { result ≡ is_restrict cascade }
{
    match cascade {
        Cascade::Restrict => true,
        _ => false,
    }
}

/// Whether a relationship blocks the removal of a set.
fn blocks_by(store: &Store, relationship: &Relationship, number: u16, set: &Found) -> bool
    requires { slice_get store.now.present.shape.links number ≡ Some (link_of relationship.now) }
    ensures { IsTrue result ↔ BlocksBy store.now.present set.now relationship.now }
{
    if !is_restrict(relationship.delete) {
        return false;
    }
    is_referred_to(store, relationship, number, set)
}

/// The first relationship of the definition that blocks the removal of a set.
fn first_blocking(store: &Store, definition: &Definition, set: &Found) -> Option<u16>
    requires { store.now.present.shape ≡ shape_of definition.now }
    ensures { IsFirst (Blocks store.now.present definition.now set.now) result }
{
    let mut number: u16 = 0;
    'relationships: while let Some(relationship) = at(
        definition.relationships(),
        usize::from(number),
    ) {
        if blocks_by(store, relationship, number, set) {
            return Some(number);
        }
        if number == 65_535 {
            return None;
        }
        number += 1;
    }
    None
}

/// The first relationship of the definition that blocks the removal of a set of rows: it restricts removals, and a row
/// outside the set names a row of the set by it. None, where none does. The store is of the definition.
///
/// # Errors
///
/// Memory ran out.
pub fn first_restrict(
    alloc: Global,
    store: &Store,
    definition: &Definition,
    set: &[RowKey],
) -> Result<Option<u16>, AllocError>
    requires { store.now.present.shape ≡ shape_of definition.now }
    ensures { IfOk result (IsFirst (Blocks store.now.present definition.now set.now)) }
{
    let rows = rows_of(alloc, set)?;
    Ok(first_blocking(store, definition, &rows))
}
