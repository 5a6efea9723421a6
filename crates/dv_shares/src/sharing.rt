//! Granting, revoking and modifying the rights of a user or a team.
ghost use Rattle.std.specs.Prelude.{◌≡◌, OnOk, OnErr, IfErr};
ghost use Rattle.dv_work.specs.History.{Extends};
ghost use Rattle.dv_shares.specs.Grants.{granted, granted_at, modified, modified_at, revoked, revoked_at, Regrants};
ghost use Rattle.dv_shares.specs.Outcome.{Makes, MayRefuse, StaysWithin};

use crate::change::Change;
use crate::changing::{change_one, change_others};
use dv_store::{RowKey, Store, StoreFault};
use dv_value::Id;
use std::alloc::AllocError;

/// Adds rights of a principal on the target, and on the other rows of a set. What was changed before a refusal is left
/// as it is.
fn add(
    store: &mut Store,
    set: &[RowKey],
    target: RowKey,
    principal: Id,
    mask: u32,
) -> Result<(), StoreFault>
    ensures ok { OnOk result (Makes store.old store.new
        (granted set.now target principal mask store.old.present)) }
    ensures within { OnOk result (StaysWithin store.old.present store.new.present) }
    ensures err { IfErr result (λ e. MayRefuse
        (granted set.now target principal mask store.old.present) e) }
    ensures extends { OnErr result (Extends store.old store.new) }
{
    if let Err(fault) = change_one(store, target, principal, Change::AddDirect(mask)) {
        return Err(fault);
    }
    change_others(store, set, target, principal, Change::AddInherited(mask))
}

/// Takes the rights of a principal on the target, and the inherited ones on the other rows of a set.
fn clear(store: &mut Store, set: &[RowKey], target: RowKey, principal: Id) -> Result<(), StoreFault>
    ensures ok { OnOk result (Makes store.old store.new
        (revoked set.now target principal store.old.present)) }
    ensures within { OnOk result (StaysWithin store.old.present store.new.present) }
    ensures extends { OnErr result (Extends store.old store.new) }
{
    change_one(store, target, principal, Change::Clear)?;
    change_others(store, set, target, principal, Change::ClearInherited)
}

/// Grants rights on a row to a user or a team: a mask joins the direct rights on the target, and the inherited rights on
/// the other rows of the set.
///
/// # Errors
///
/// `Limit(Grant)`, only where there would be more than 500,000 grants. `OutOfMemory`.
pub fn grant(
    store: &mut Store,
    set: &[RowKey],
    target: RowKey,
    principal: Id,
    mask: u32,
) -> Result<(), StoreFault>
    ensures ok { OnOk result (Makes store.old store.new
        (granted set.now target principal mask store.old.present)) }
    ensures each { OnOk result (Regrants
        (granted_at store.old.present set.now target principal mask)
        store.old.present store.new.present) }
    ensures within { OnOk result (StaysWithin store.old.present store.new.present) }
    ensures err { IfErr result (λ e. MayRefuse
        (granted set.now target principal mask store.old.present) e) }
    ensures kept { OnErr result (store.new ≡ store.old) }
{
    let start = store.mark();
    match add(store, set, target, principal, mask) {
        Ok(()) => Ok(()),
        Err(fault) => {
            store.undo_to(start);
            Err(fault)
        }
    }
}

/// Revokes the rights of a user or a team: the direct and the inherited ones on the target, and the inherited ones on
/// the other rows of the set.
///
/// # Errors
///
/// Memory ran out.
pub fn revoke(
    store: &mut Store,
    set: &[RowKey],
    target: RowKey,
    principal: Id,
) -> Result<(), AllocError>
    ensures ok { OnOk result (Makes store.old store.new
        (revoked set.now target principal store.old.present)) }
    ensures each { OnOk result (Regrants
        (revoked_at store.old.present set.now target principal)
        store.old.present store.new.present) }
    ensures within { OnOk result (StaysWithin store.old.present store.new.present) }
    ensures kept { OnErr result (store.new ≡ store.old) }
{
    let start = store.mark();
    match clear(store, set, target, principal) {
        Ok(()) => Ok(()),
        Err(_) => {
            store.undo_to(start);
            Err(AllocError)
        }
    }
}

/// Modifies the rights of a user or a team: it revokes them over one set, and grants a mask over another.
///
/// # Errors
///
/// `Limit(Grant)`, only where there would be more than 500,000 grants. `OutOfMemory`.
pub fn modify(
    store: &mut Store,
    unshare: &[RowKey],
    share: &[RowKey],
    target: RowKey,
    principal: Id,
    mask: u32,
) -> Result<(), StoreFault>
    ensures ok { OnOk result (Makes store.old store.new
        (modified unshare.now share.now target principal mask store.old.present)) }
    ensures each { OnOk result (Regrants
        (modified_at store.old.present unshare.now share.now target principal mask)
        store.old.present store.new.present) }
    ensures within { OnOk result (StaysWithin store.old.present store.new.present) }
    ensures err { IfErr result (λ e. MayRefuse
        (modified unshare.now share.now target principal mask store.old.present) e) }
    ensures kept { OnErr result (store.new ≡ store.old) }
{
    let start = store.mark();
    revoke(store, unshare, target, principal)?;
    match grant(store, share, target, principal, mask) {
        Ok(()) => Ok(()),
        Err(fault) => {
            store.undo_to(start);
            Err(fault)
        }
    }
}
