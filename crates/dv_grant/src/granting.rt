//! Granting rights on a row, and modifying those that were granted.
ghost use Rattle.std.specs.Prelude.{◌≡◌, IfOk, IfErr, OnOk, OnErr, None, Ok, Err};
ghost use Rattle.dv_work.specs.History.{Extends};
ghost use Rattle.dv_store.specs.Shapes.{shape_of};
ghost use Rattle.dv_shares.specs.Outcome.{LimitSays};
ghost use Rattle.dv_grant.specs.Granting.{granting_in, IsGranted, IsModified, IsStopped, RunsGrant, RunsModify};
ghost use Rattle.dv_refusal.specs.declared.refusal.Refusal.{Refusal as Answer};
ghost use Rattle.dv_message.specs.declared.stop.Stop.TheVariants.{Refused};

use crate::closures::{key_of, reached};
use crate::giving::{GRANT_CHECKS, judge_all, mask_of};
use dv_cascade::Cascading;
use dv_message::{Stop, Target, stop_of};
use dv_request::Reply;
use dv_store::Store;
use dv_value::Id;
use std::alloc::Global;

/// Adds the rights.
fn add(
    alloc: Global,
    store: &mut Store,
    target: &Target<'_>,
    principal: Id,
    rights: i64,
) -> Result<(), Stop>
    requires { store.old.present.shape ≡ shape_of target.now.scene.definition.now }
    ensures ok { OnOk result
        (IsGranted (granting_in store.old.present target.now principal rights) store.new.present) }
    ensures within { OnOk result (LimitSays
        (IsGranted (granting_in store.old.present target.now principal rights))
        store.old.present None) }
    ensures err { IfErr result (IsStopped
        (IsGranted (granting_in store.old.present target.now principal rights)) store.old.present) }
    ensures extends { OnOk result (Extends store.old store.new) }
    ensures shape { OnOk result (store.new.present.shape ≡ store.old.present.shape) }
    ensures rows { OnOk result (store.new.present.rows ≡ store.old.present.rows) }
    ensures kept { OnErr result (store.new ≡ store.old) }
{
    let rows = reached(alloc, store, target, Cascading::Share)?;
    let mask = mask_of(rights);
    match dv_shares::grant(store, rows.as_slice(), key_of(target), principal, mask) {
        Ok(()) => Ok(()),
        Err(fault) => Err(stop_of(fault)),
    }
}

/// Puts the rights in the place of those that there were.
fn replace(
    alloc: Global,
    store: &mut Store,
    target: &Target<'_>,
    principal: Id,
    rights: i64,
) -> Result<(), Stop>
    requires { store.old.present.shape ≡ shape_of target.now.scene.definition.now }
    ensures ok { OnOk result
        (IsModified (granting_in store.old.present target.now principal rights) store.new.present) }
    ensures within { OnOk result (LimitSays
        (IsModified (granting_in store.old.present target.now principal rights))
        store.old.present None) }
    ensures err { IfErr result (IsStopped
        (IsModified (granting_in store.old.present target.now principal rights)) store.old.present) }
    ensures extends { OnOk result (Extends store.old store.new) }
    ensures shape { OnOk result (store.new.present.shape ≡ store.old.present.shape) }
    ensures rows { OnOk result (store.new.present.rows ≡ store.old.present.rows) }
    ensures kept { OnErr result (store.new ≡ store.old) }
{
    let unshared = reached(alloc, store, target, Cascading::Unshare)?;
    let shared = reached(alloc, store, target, Cascading::Share)?;
    let before = unshared.as_slice();
    let after = shared.as_slice();
    let mask = mask_of(rights);
    match dv_shares::modify(store, before, after, key_of(target), principal, mask) {
        Ok(()) => Ok(()),
        Err(fault) => Err(stop_of(fault)),
    }
}

/// Grants rights on the row that a message names to a user or a team: they join the direct rights on the row, and the
/// inherited rights on the rows that its relationships say. `rights` is a sum of rights, each once: 1 Read, 2 Write, 4
/// Append, 16 AppendTo, 65,536 Delete, 262,144 Share, 524,288 Assign. The store is of the definition.
///
/// # Errors
///
/// `Refused` with the first check that fails: rows of the table have no owners (`NotShareable`); the id is that of no user
/// and of no team (`BadPrincipal`); the number isn't such a sum (`OutOfRange` of `rights`); the row isn't there
/// (`NotFound`); the caller may not share it, or lacks one of the rights that it gives, of which the least is told
/// (`Denied`); there would be more than 500,000 grants (`Limit`). `OutOfMemory`. The store is then as it was.
pub fn grant(
    alloc: Global,
    store: &mut Store,
    target: &Target<'_>,
    principal: Id,
    rights: i64,
) -> Result<Reply, Stop>
    requires { store.old.present.shape ≡ shape_of target.now.scene.definition.now }
    ensures ok { IfOk result (λ reply. RunsGrant
        (granting_in store.old.present target.now principal rights) store.new.present (Ok reply)) }
    ensures refused { (refusal : Answer) → result ≡ Err (Refused refusal) → RunsGrant
        (granting_in store.old.present target.now principal rights) store.old.present
        (Err refusal) }
    ensures extends { OnOk result (Extends store.old store.new) }
    ensures shape { OnOk result (store.new.present.shape ≡ store.old.present.shape) }
    ensures rows { OnOk result (store.new.present.rows ≡ store.old.present.rows) }
    ensures kept { OnErr result (store.new ≡ store.old) }
{
    match judge_all(alloc, store, target, principal, rights, &GRANT_CHECKS) {
        Ok(()) => {}
        Err(stop) => return Err(stop),
    }
    match add(alloc, store, target, principal, rights) {
        Ok(()) => Ok(Reply::Done),
        Err(stop) => Err(stop),
    }
}

/// Modifies the rights that a user or a team was given on the row that a message names: they are revoked, on the rows too
/// that its relationships say, and the new ones are granted as [`grant`] grants them.
///
/// # Errors
///
/// As [`grant`].
pub fn modify(
    alloc: Global,
    store: &mut Store,
    target: &Target<'_>,
    principal: Id,
    rights: i64,
) -> Result<Reply, Stop>
    requires { store.old.present.shape ≡ shape_of target.now.scene.definition.now }
    ensures ok { IfOk result (λ reply. RunsModify
        (granting_in store.old.present target.now principal rights) store.new.present (Ok reply)) }
    ensures refused { (refusal : Answer) → result ≡ Err (Refused refusal) → RunsModify
        (granting_in store.old.present target.now principal rights) store.old.present
        (Err refusal) }
    ensures extends { OnOk result (Extends store.old store.new) }
    ensures shape { OnOk result (store.new.present.shape ≡ store.old.present.shape) }
    ensures rows { OnOk result (store.new.present.rows ≡ store.old.present.rows) }
    ensures kept { OnErr result (store.new ≡ store.old) }
{
    match judge_all(alloc, store, target, principal, rights, &GRANT_CHECKS) {
        Ok(()) => {}
        Err(stop) => return Err(stop),
    }
    match replace(alloc, store, target, principal, rights) {
        Ok(()) => Ok(Reply::Done),
        Err(stop) => Err(stop),
    }
}
