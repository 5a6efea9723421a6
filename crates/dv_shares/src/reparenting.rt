//! What rows inherit once a row has another parent.
ghost use Rattle.std.specs.Prelude.{◌≡◌, OnOk, OnErr, IfErr, true};
ghost use Rattle.std.specs.List.{list_all};
ghost use Rattle.dv_work.specs.History.{Extends};
ghost use Rattle.dv_store.specs.Keys.{row_cmp};
ghost use Rattle.dv_store.specs.Shapes.{is_owned};
ghost use Rattle.dv_cascade.specs.declared.cascading.Cascading.TheVariants.{Reparent};
ghost use Rattle.dv_cascade.specs.Chains.{AreExactly, IsReached};
ghost use Rattle.dv_cascade.specs.Circles.{HasNoCircle, HasOneParent};
ghost use Rattle.dv_shares.specs.Inheriting.{Reparents};
ghost use Rattle.dv_shares.specs.Outcome.{MayRefuseTo, StaysWithin};

use crate::heirs::heirs_of;
use crate::inheriting::{disinherit_all, inherit_all};
use dv_schema::Definition;
use dv_store::{RowKey, Store, StoreFault};
use std::alloc::Global;

/// Lets the rows of a set inherit anew. What was changed before a refusal is left as it is.
fn replace(
    alloc: Global,
    store: &mut Store,
    definition: &Definition,
    set: &[RowKey],
    moved: RowKey,
) -> Result<(), StoreFault>
    requires set { AreExactly row_cmp
        (IsReached store.old.present definition.now Reparent moved) set.now }
    requires owned { list_all (λ row. is_owned store.old.present.shape row.table) set.now ≡ true }
    requires one_parent { HasOneParent definition.now }
    requires no_circle { HasNoCircle store.old.present definition.now }
    ensures ok { OnOk result
        (Reparents definition.now moved store.old.present store.new.present) }
    ensures extends { Extends store.old store.new }
    ensures within { OnOk result (StaysWithin store.old.present store.new.present) }
    ensures err { IfErr result
        (MayRefuseTo (Reparents definition.now moved store.old.present)) }
{
    let heirs = heirs_of(alloc, store, definition, set)?;
    if let Err(_) = disinherit_all(store, set) {
        return Err(StoreFault::OutOfMemory);
    }
    inherit_all(alloc, store, heirs.as_slice())
}

/// Lets a row whose lookup names another parent now, or none, inherit anew, and with it the rows
/// that this reaches. What they inherited by the old parent goes. On each of them a user or team
/// gets its rights on the new parent, its direct rights on the rows from the moved one down to
/// this one, this one left out, and all rights where it owns the new parent or one of these rows.
/// Direct rights stay.
///
/// The set is what `dv_cascade::closure` gives for the moved row once its lookup is set. Users and
/// teams own the rows of the set. A table is the child of at most one parental relationship, and
/// no row of the store is above itself.
///
/// # Errors
///
/// `Limit(Grant)`, only where there would be more than 500,000 grants. `OutOfMemory`.
pub fn reparent(
    alloc: Global,
    store: &mut Store,
    definition: &Definition,
    set: &[RowKey],
    moved: RowKey,
) -> Result<(), StoreFault>
    requires set { AreExactly row_cmp
        (IsReached store.old.present definition.now Reparent moved) set.now }
    requires owned { list_all (λ row. is_owned store.old.present.shape row.table) set.now ≡ true }
    requires one_parent { HasOneParent definition.now }
    requires no_circle { HasNoCircle store.old.present definition.now }
    ensures ok { OnOk result
        (Reparents definition.now moved store.old.present store.new.present) }
    ensures extends { OnOk result (Extends store.old store.new) }
    ensures within { OnOk result (StaysWithin store.old.present store.new.present) }
    ensures err { IfErr result
        (MayRefuseTo (Reparents definition.now moved store.old.present)) }
    ensures kept { OnErr result (store.new ≡ store.old) }
{
    let start = store.mark();
    match replace(alloc, store, definition, set, moved) {
        Ok(()) => Ok(()),
        Err(fault) => {
            store.undo_to(start);
            Err(fault)
        }
    }
}
