//! Changing the grants of a principal, row by row.
ghost use Rattle.std.specs.Prelude.{◌≡◌, true, OnOk, OnErr, IfErr};
ghost use Rattle.dv_work.specs.History.{Extends};
ghost use Rattle.dv_shares.specs.Rights.{adds};
ghost use Rattle.dv_shares.specs.Grants.{can_have_grants};
ghost use Rattle.dv_shares.specs.Outcome.{Makes, MayRefuse, StaysWithin};
ghost use Rattle.dv_shares.specs.Steps.{one_changed, other_changed, others_changed};

use crate::change::{Change, Rights, are_same, changed};
use dv_store::{RowKey, Store, StoreFault};
use dv_value::Id;

/// Whether a row can have grants: it is there, and rows of its table have owners.
fn can_have_grants(store: &Store, row: RowKey) -> bool
    ensures { result ≡ can_have_grants store.now.present row }
{
    store.row(row.table, row.id).is_some() && store.is_owned(row.table)
}

/// Changes the rights of a principal on a row, if the row can have grants.
pub(crate) fn change_one(
    store: &mut Store,
    row: RowKey,
    principal: Id,
    change: Change,
) -> Result<(), StoreFault>
    ensures ok { OnOk result (Makes store.old store.new
        (one_changed principal change row store.old.present)) }
    ensures within { OnOk result (StaysWithin store.old.present store.new.present) }
    ensures err { IfErr result (λ e. MayRefuse
        (one_changed principal change row store.old.present) e) }
    ensures kept { OnErr result (store.new ≡ store.old) }
{
    if !can_have_grants(store, row) {
        return Ok(());
    }
    let (direct, inherited) = store.grant(row.table, row.id, principal);
    let before = Rights { direct, inherited };
    let after = changed(change, before);
    if are_same(after, before) {
        return Ok(());
    }
    store.set_grant(row.table, row.id, principal, after.direct, after.inherited)
}

/// Changes the rights of a principal on a row of a set, if it isn't the target.
fn change_other(
    store: &mut Store,
    row: RowKey,
    target: RowKey,
    principal: Id,
    change: Change,
) -> Result<(), StoreFault>
    ensures ok { OnOk result (Makes store.old store.new
        (other_changed target principal change row store.old.present)) }
    ensures within { OnOk result (StaysWithin store.old.present store.new.present) }
    ensures err { IfErr result (λ e. MayRefuse
        (other_changed target principal change row store.old.present) e) }
    ensures kept { OnErr result (store.new ≡ store.old) }
{
    if row == target {
        return Ok(());
    }
    change_one(store, row, principal, change)
}

/// Changes the rights of a principal on the rows of a set other than the target. What was changed before a refusal
/// is left as it is.
pub(crate) fn change_others(
    store: &mut Store,
    set: &[RowKey],
    target: RowKey,
    principal: Id,
    change: Change,
) -> Result<(), StoreFault>
    ensures ok { OnOk result (Makes store.old store.new
        (others_changed target principal change set.now store.old.present)) }
    ensures within { OnOk result (StaysWithin store.old.present store.new.present) }
    ensures err { IfErr result (λ e. adds change ≡ true → MayRefuse
        (others_changed target principal change set.now store.old.present) e) }
    ensures extends { OnErr result (Extends store.old store.new) }
{
    for row in set {
        if let Err(fault) = change_other(store, *row, target, principal, change) {
            return Err(fault);
        }
    }
    Ok(())
}
