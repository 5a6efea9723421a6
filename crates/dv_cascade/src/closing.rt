//! The rows that what is done to a row reaches.
ghost use Rattle.std.specs.Prelude.{◌≡◌, ◌↔◌, ◌∷◌, [], IfOk, IsTrue, OnOk, if◌then◌else◌};
ghost use Rattle.dv_store.specs.Keys.{row_cmp};
ghost use Rattle.dv_store.specs.Shapes.{shape_of};
ghost use Rattle.dv_store.specs.World.{is_there};
ghost use Rattle.dv_cascade.specs.Links.{Leads};
ghost use Rattle.dv_cascade.specs.Chains.{is_among, AreExactly, IsReached};
ghost use Rattle.dv_cascade.specs.Found.{AreOf, IsUnder};

use crate::cascading::Cascading;
use crate::expanding::find_all;
use crate::found::Found;
use dv_schema::Definition;
use dv_store::{RowKey, Store};
use std::alloc::{AllocError, Global};

/// A target alone, if it is there.
fn start(alloc: Global, store: &Store, target: RowKey) -> Result<Found, AllocError>
    ensures { IfOk result (λ found. found
        ≡ (if is_there store.now.present.rows target then target ∷ [] else [])) }
{
    let mut found = Found::new(alloc);
    if store.row(target.table, target.id).is_some() {
        found.add(target)?;
    }
    Ok(found)
}

/// Adds all rows that what is done to those found reaches: each row's children in turn, until none are left.
fn find_under(
    store: &Store,
    definition: &Definition,
    cascading: Cascading,
    found: &mut Found,
) -> Result<(), AllocError>
    requires shape { store.now.present.shape ≡ shape_of definition.now }
    requires are_of { AreOf store.now.present.rows found.old }
    ensures { OnOk result ((key : RowKey) → IsTrue (is_among found.new key)
        ↔ IsUnder (Leads store.now.present definition.now cascading) found.old key) }
{
    let mut next: usize = 0;
    'rows: while let Some(parent) = found.at(next) {
        find_all(store, definition, cascading, parent, found)?;
        next += 1;
    }
    Ok(())
}

/// The rows that what is done to a target reaches, the target included, by table and id. None, where the target isn't
/// there.
///
/// The store is of the definition. A link from a parent to a child is followed where its relationship's cascade for
/// this reaches the child: always, where the child is active, or where both have one owner.
///
/// # Errors
///
/// Memory ran out.
pub fn closure(
    alloc: Global,
    store: &Store,
    definition: &Definition,
    cascading: Cascading,
    target: RowKey,
) -> Result<Vec<RowKey>, AllocError>
    requires { store.now.present.shape ≡ shape_of definition.now }
    ensures { IfOk result (λ rows. AreExactly row_cmp
        (IsReached store.now.present definition.now cascading target) rows.items) }
{
    let mut found = start(alloc, store, target)?;
    find_under(store, definition, cascading, &mut found)?;
    Ok(found.sorted(alloc)?)
}
