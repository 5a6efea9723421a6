//! Taking away what rows inherited, and letting them inherit.
ghost use Rattle.std.specs.Prelude.{◌≡◌, OnOk, OnErr, IfErr};
ghost use Rattle.dv_store.specs.Keys.{is_row};
ghost use Rattle.dv_work.specs.History.{Extends};
ghost use Rattle.dv_cascade.specs.Chains.{is_among};
ghost use Rattle.dv_shares.specs.Grants.{Regrants};
ghost use Rattle.dv_shares.specs.Handing.{all_inherit, cleared_on, each_added, inherits};
ghost use Rattle.dv_shares.specs.Outcome.{Makes, MayRefuse, StaysWithin};

use crate::change::Change;
use crate::changing::change_one;
use crate::handing::{Share, shares_of};
use crate::heirs::Heir;
use dv_store::{RowKey, Store, StoreFault};
use std::alloc::{AllocError, Global};

/// Takes away all that is inherited on a row.
fn disinherit(store: &mut Store, row: RowKey) -> Result<(), StoreFault>
    ensures grants { OnOk result (Regrants
        (cleared_on store.old.present (λ other. is_row other row))
        store.old.present store.new.present) }
    ensures within { OnOk result (StaysWithin store.old.present store.new.present) }
    ensures extends { Extends store.old store.new }
{
    let mut after = None;
    'principals: while let Some(principal) = store.principal_after(row.table, row.id, after) {
        if let Err(fault) = change_one(store, row, principal, Change::ClearInherited) {
            return Err(fault);
        }
        after = Some(principal);
    }
    Ok(())
}

/// Takes away all that is inherited on the rows of a set.
pub(crate) fn disinherit_all(store: &mut Store, set: &[RowKey]) -> Result<(), StoreFault>
    ensures grants { OnOk result (Regrants (cleared_on store.old.present (is_among set.now))
        store.old.present store.new.present) }
    ensures within { OnOk result (StaysWithin store.old.present store.new.present) }
    ensures extends { Extends store.old store.new }
{
    for row in set {
        if let Err(fault) = disinherit(store, *row) {
            return Err(fault);
        }
    }
    Ok(())
}

/// Adds shares to what is inherited on a row.
fn add_each(store: &mut Store, row: RowKey, shares: &[Share]) -> Result<(), StoreFault>
    ensures ok { OnOk result (Makes store.old store.new
        (each_added row shares.now store.old.present)) }
    ensures within { OnOk result (StaysWithin store.old.present store.new.present) }
    ensures err { IfErr result (λ e. MayRefuse
        (each_added row shares.now store.old.present) e) }
    ensures extends { OnErr result (Extends store.old store.new) }
{
    for share in shares {
        if let Err(fault) = change_one(
            store,
            row,
            share.principal,
            Change::AddInherited(share.mask),
        ) {
            return Err(fault);
        }
    }
    Ok(())
}

/// Gives a row what its parent hands down.
fn inherit(alloc: Global, store: &mut Store, heir: Heir) -> Result<(), StoreFault>
    ensures ok { OnOk result (Makes store.old store.new
        (inherits heir store.old.present)) }
    ensures within { OnOk result (StaysWithin store.old.present store.new.present) }
    ensures err { IfErr result (λ e. MayRefuse
        (inherits heir store.old.present) e) }
    ensures extends { OnErr result (Extends store.old store.new) }
{
    let Some(parent) = heir.parent else {
        return Ok(());
    };
    let shares = shares_of(alloc, store, parent)?;
    add_each(store, heir.row, shares.as_slice())
}

/// Gives each heir in turn what its parent hands down.
pub(crate) fn inherit_all(
    alloc: Global,
    store: &mut Store,
    heirs: &[Heir],
) -> Result<(), StoreFault>
    ensures ok { OnOk result (Makes store.old store.new
        (all_inherit heirs.now store.old.present)) }
    ensures within { OnOk result (StaysWithin store.old.present store.new.present) }
    ensures err { IfErr result (λ e. MayRefuse
        (all_inherit heirs.now store.old.present) e) }
    ensures extends { OnErr result (Extends store.old store.new) }
{
    for heir in heirs {
        if let Err(fault) = inherit(alloc, store, *heir) {
            return Err(fault);
        }
    }
    Ok(())
}
