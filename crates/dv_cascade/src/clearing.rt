//! Which lookups a removal empties.
ghost use Rattle.std.specs.Prelude.{◌≡◌, IfOk, OnOk, Some, slice_get};
ghost use Rattle.dv_store.specs.Shapes.{shape_of};
ghost use Rattle.dv_cascade.specs.Links.{link_of};
ghost use Rattle.dv_cascade.specs.Chains.{AreExactly};
ghost use Rattle.dv_cascade.specs.Removal.{empties_lookups, lookup_cmp, EmptiesBy, IsCleared, NamesInto};
ghost use Rattle.dv_cascade.specs.Cleared.{Adds, IsSpared, Names};

use crate::blocking::rows_of;
use crate::found::Found;
use crate::lookup::LookupKey;
use crate::lookups::Lookups;
use dv_schema::{Cascade, Definition, Relationship};
use dv_store::{RowKey, Store};
use sqlite_items::at;
use std::alloc::{AllocError, Global};

/// Whether a cascade empties lookups.
fn empties_lookups(cascade: Cascade) -> bool
    ensures { result ≡ empties_lookups cascade }
{
    match cascade {
        Cascade::Cascade | Cascade::Restrict => false,
        _ => true,
    }
}

/// Adds a lookup, where its row is outside a set.
fn clear_child(set: &Found, lookup: LookupKey, cleared: &mut Lookups) -> Result<(), AllocError>
    ensures { OnOk result (Adds (IsSpared set.now lookup) cleared.old cleared.new) }
{
    if set.has(lookup.row) {
        return Ok(());
    }
    cleared.add(lookup)?;
    Ok(())
}

/// Adds the lookups of rows outside a set that name a parent by a relationship.
fn clear_children(
    store: &Store,
    relationship: &Relationship,
    number: u16,
    parent: RowKey,
    set: &Found,
    cleared: &mut Lookups,
) -> Result<(), AllocError>
    requires link { slice_get store.now.present.shape.links number
        ≡ Some (link_of relationship.now) }
    requires table { parent.table ≡ relationship.now.parent }
    ensures { OnOk result (Adds (Names store.now.present relationship.now set.now parent)
        cleared.old cleared.new) }
{
    let mut after = None;
    'children: while let Some(id) = store.children_after(number, parent.id, after) {
        let lookup = LookupKey {
            row: RowKey {
                table: relationship.child,
                id,
            },
            column: relationship.column,
        };
        clear_child(set, lookup, cleared)?;
        after = Some(id);
    }
    Ok(())
}

/// Adds the lookups of rows outside a set that name a row by a relationship.
fn clear_under(
    store: &Store,
    relationship: &Relationship,
    number: u16,
    parent: RowKey,
    set: &Found,
    cleared: &mut Lookups,
) -> Result<(), AllocError>
    requires { slice_get store.now.present.shape.links number ≡ Some (link_of relationship.now) }
    ensures { OnOk result (Adds (Names store.now.present relationship.now set.now parent)
        cleared.old cleared.new) }
{
    if parent.table != relationship.parent {
        return Ok(());
    }
    clear_children(store, relationship, number, parent, set, cleared)
}

/// Adds the lookups of rows outside a set that name a row of it by a relationship.
fn clear_into(
    store: &Store,
    relationship: &Relationship,
    number: u16,
    set: &Found,
    cleared: &mut Lookups,
) -> Result<(), AllocError>
    requires { slice_get store.now.present.shape.links number ≡ Some (link_of relationship.now) }
    ensures { OnOk result (Adds (NamesInto store.now.present relationship.now set.now)
        cleared.old cleared.new) }
{
    let mut next: usize = 0;
    'parents: while let Some(parent) = set.at(next) {
        clear_under(store, relationship, number, parent, set, cleared)?;
        next += 1;
    }
    Ok(())
}

/// Adds the lookups that a relationship empties where the rows of a set are removed.
fn clear_by(
    store: &Store,
    relationship: &Relationship,
    number: u16,
    set: &Found,
    cleared: &mut Lookups,
) -> Result<(), AllocError>
    requires { slice_get store.now.present.shape.links number ≡ Some (link_of relationship.now) }
    ensures { OnOk result (Adds (EmptiesBy store.now.present set.now relationship.now)
        cleared.old cleared.new) }
{
    if !empties_lookups(relationship.delete) {
        return Ok(());
    }
    clear_into(store, relationship, number, set, cleared)?;
    Ok(())
}

/// Adds all lookups that are emptied where the rows of a set are removed.
fn clear_all(
    store: &Store,
    definition: &Definition,
    set: &Found,
    cleared: &mut Lookups,
) -> Result<(), AllocError>
    requires { store.now.present.shape ≡ shape_of definition.now }
    ensures { OnOk result (Adds (IsCleared store.now.present definition.now set.now)
        cleared.old cleared.new) }
{
    let mut number: u16 = 0;
    'relationships: while let Some(relationship) = at(
        definition.relationships(),
        usize::from(number),
    ) {
        clear_by(store, relationship, number, set, cleared)?;
        if number == 65_535 {
            return Ok(());
        }
        number += 1;
    }
    Ok(())
}

/// The lookups that are emptied where the rows of a set are removed, by table, id and column: those of rows outside the
/// set that name a row of it by a relationship that empties lookups. The store is of the definition.
///
/// # Errors
///
/// Memory ran out.
pub fn links_to_clear(
    alloc: Global,
    store: &Store,
    definition: &Definition,
    set: &[RowKey],
) -> Result<Vec<LookupKey>, AllocError>
    requires { store.now.present.shape ≡ shape_of definition.now }
    ensures { IfOk result (λ lookups. AreExactly lookup_cmp
        (IsCleared store.now.present definition.now set.now) lookups.items) }
{
    let rows = rows_of(alloc, set)?;
    let mut cleared = Lookups::new(alloc);
    clear_all(store, definition, &rows, &mut cleared)?;
    Ok(cleared.sorted(alloc)?)
}
