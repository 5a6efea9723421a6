//! The children that what is done to a parent reaches.
ghost use Rattle.std.specs.Prelude.{◌≡◌, OnOk, Some, true, slice_get};
ghost use Rattle.std.specs.Option.{option_copied};
ghost use Rattle.dv_store.specs.Shapes.{shape_of};
ghost use Rattle.dv_store.specs.World.{is_there};
ghost use Rattle.dv_cascade.specs.Links.{cascade_by, link_of, reaches_any, Leads, LeadsBy};
ghost use Rattle.dv_cascade.specs.Found.{Finds, IsAllowed};

use crate::allowing::allows;
use crate::cascading::Cascading;
use crate::found::Found;
use dv_schema::{Cascade, Definition, Relationship};
use dv_store::{RowKey, Store};
use sqlite_items::at;
use std::alloc::AllocError;

/// Whether a cascade reaches any child.
fn reaches_any(cascade: Cascade) -> bool
    ensures { result ≡ reaches_any cascade }
{
    match cascade {
        Cascade::Cascade | Cascade::Active | Cascade::UserOwned => true,
        Cascade::NoCascade | Cascade::RemoveLink | Cascade::Restrict => false,
    }
}

/// Adds a child to those found, where a cascade reaches it from its parent.
fn find_child(
    store: &Store,
    cascade: Cascade,
    parent: RowKey,
    child: RowKey,
    found: &mut Found,
) -> Result<(), AllocError>
    requires { is_there store.now.present.rows child ≡ true }
    ensures { OnOk result (Finds store.now.present.rows
        (IsAllowed store.now.present cascade parent child) found.old found.new) }
{
    if allows(store, cascade, parent, child) {
        found.add(child)?;
    }
    Ok(())
}

/// Adds the children by one relationship that a cascade reaches from their parent.
fn find_children(
    store: &Store,
    relationship: &Relationship,
    number: u16,
    cascade: Cascade,
    parent: RowKey,
    found: &mut Found,
) -> Result<(), AllocError>
    requires link { slice_get store.now.present.shape.links number
        ≡ Some (link_of relationship.now) }
    requires table { parent.table ≡ relationship.now.parent }
    ensures { OnOk result (Finds store.now.present.rows
        (LeadsBy store.now.present relationship.now cascade parent) found.old found.new) }
{
    let mut after = None;
    'children: while let Some(id) = store.children_after(number, parent.id, after) {
        let child = RowKey {
            table: relationship.child,
            id,
        };
        find_child(store, cascade, parent, child, found)?;
        after = Some(id);
    }
    Ok(())
}

/// Adds the children by one relationship of the definition that what is done to a parent reaches.
fn find_by(
    store: &Store,
    relationship: &Relationship,
    number: u16,
    cascading: Cascading,
    parent: RowKey,
    found: &mut Found,
) -> Result<(), AllocError>
    requires { slice_get store.now.present.shape.links number
        ≡ Some (link_of relationship.now) }
    ensures { OnOk result (Finds store.now.present.rows
        (LeadsBy store.now.present relationship.now (cascade_by cascading relationship.now) parent)
        found.old found.new) }
{
    let cascade = cascading.by(relationship);
    if parent.table != relationship.parent {
        return Ok(());
    }
    if !reaches_any(cascade) {
        return Ok(());
    }
    find_children(store, relationship, number, cascade, parent, found)
}

/// Adds all children that what is done to a parent reaches.
pub(crate) fn find_all(
    store: &Store,
    definition: &Definition,
    cascading: Cascading,
    parent: RowKey,
    found: &mut Found,
) -> Result<(), AllocError>
    requires { store.now.present.shape ≡ shape_of definition.now }
    ensures { OnOk result (Finds store.now.present.rows
        (Leads store.now.present definition.now cascading parent) found.old found.new) }
{
    let mut number: u16 = 0;
    'relationships: while let Some(relationship) = at(
        definition.relationships(),
        usize::from(number),
    ) {
        find_by(store, relationship, number, cascading, parent, found)?;
        if number == 65_535 {
            return Ok(());
        }
        number += 1;
    }
    Ok(())
}
