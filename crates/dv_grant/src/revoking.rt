//! Revoking rights on a row.
ghost use Rattle.std.specs.Prelude.{◌≡◌, IfOk, OnOk, OnErr, Ok, Err};
ghost use Rattle.dv_work.specs.History.{Extends};
ghost use Rattle.dv_store.specs.Shapes.{shape_of};
ghost use Rattle.dv_message.specs.Checked.{Answers, Walked};
ghost use Rattle.dv_grant.specs.Revoking.{revoking_in, principal_fault, RevokeSays, IsRevoked, RunsRevoke};
ghost use Rattle.dv_refusal.specs.declared.refusal.Refusal.{Refusal as Answer};
ghost use Rattle.dv_message.specs.declared.stop.Stop.TheVariants.{Refused};

use crate::closures::{key_of, reached};
use dv_cascade::Cascading;
use dv_message::{Stop, Target, check_right, check_row, check_shareable, is_principal, refused_if};
use dv_refusal::Refusal;
use dv_request::Reply;
use dv_schema::Action;
use dv_store::Store;
use dv_units::Units;
use dv_value::Id;
use std::alloc::{AllocError, Global};

/// What is checked before rights are revoked.
#[derive(Clone, Copy, Debug, PartialEq, Eq)]
pub(crate) enum RevokeCheck {
    /// Rows of the table have owners.
    Table,
    /// The principal is a user or a team.
    Principal,
    /// The row is there.
    Row,
    /// The caller may share it.
    Share,
}

/// The checks, in the order in which they are made.
const REVOKE_CHECKS: [RevokeCheck; 4] = [
    RevokeCheck::Table,
    RevokeCheck::Principal,
    RevokeCheck::Row,
    RevokeCheck::Share,
];

/// Checks that an id is that of a user or of a team.
pub(crate) fn check_principal(units: &Units, principal: Id) -> Result<(), Stop>
    ensures { Answers (λ said. said ≡ principal_fault units.now principal) result }
{
    let is_one = is_principal(units, principal);
    refused_if(!is_one, Refusal::BadPrincipal)
}

/// Makes one of the checks.
#[tactic(auto, unfolding(crate::specs::Revoking::RevokeSays))]
fn judge(
    alloc: Global,
    store: &Store,
    target: &Target<'_>,
    principal: Id,
    check: RevokeCheck,
) -> Result<(), Stop>
    ensures { Answers (RevokeSays (revoking_in store.now.present target.now principal)
        check) result }
{
    match check {
        RevokeCheck::Table => check_shareable(alloc, target.table),
        RevokeCheck::Principal => check_principal(target.scene.directory.units(), principal),
        RevokeCheck::Row => check_row(alloc, store, target),
        RevokeCheck::Share => check_right(alloc, store, target, Action::Share),
    }
}

/// Makes checks in their order, up to the first that fails.
#[tactic(auto, unfolding(dv_message::specs::Checked::AllPass, dv_message::specs::Checked::FirstSays))]
fn judge_all(
    alloc: Global,
    store: &Store,
    target: &Target<'_>,
    principal: Id,
    checks: &[RevokeCheck],
) -> Result<(), Stop>
    ensures { Walked (RevokeSays (revoking_in store.now.present target.now principal))
        checks.now result }
{
    for check in checks {
        match judge(alloc, store, target, principal, *check) {
            Ok(()) => {}
            Err(stop) => return Err(stop),
        }
    }
    Ok(())
}

/// Takes the rights away.
fn take(
    alloc: Global,
    store: &mut Store,
    target: &Target<'_>,
    principal: Id,
) -> Result<(), AllocError>
    requires { store.old.present.shape ≡ shape_of target.now.scene.definition.now }
    ensures ok { OnOk result
        (IsRevoked (revoking_in store.old.present target.now principal) store.new.present) }
    ensures extends { OnOk result (Extends store.old store.new) }
    ensures shape { OnOk result (store.new.present.shape ≡ store.old.present.shape) }
    ensures rows { OnOk result (store.new.present.rows ≡ store.old.present.rows) }
    ensures kept { OnErr result (store.new ≡ store.old) }
{
    let rows = reached(alloc, store, target, Cascading::Unshare)?;
    match dv_shares::revoke(store, rows.as_slice(), key_of(target), principal) {
        Ok(()) => Ok(()),
        Err(fault) => Err(fault),
    }
}

/// Revokes the rights that a user or a team was given on the row that a message names: all of those on the row, and the
/// inherited ones on the rows that its relationships say. The store is of the definition.
///
/// # Errors
///
/// `Refused` with the first check that fails: rows of the table have no owners (`NotShareable`); the id is that of no user
/// and of no team (`BadPrincipal`); the row isn't there (`NotFound`); the caller may not share it (`Denied`).
/// `OutOfMemory`. The store is then as it was.
pub fn revoke(
    alloc: Global,
    store: &mut Store,
    target: &Target<'_>,
    principal: Id,
) -> Result<Reply, Stop>
    requires { store.old.present.shape ≡ shape_of target.now.scene.definition.now }
    ensures ok { IfOk result (λ reply. RunsRevoke
        (revoking_in store.old.present target.now principal) store.new.present (Ok reply)) }
    ensures refused { (refusal : Answer) → result ≡ Err (Refused refusal) → RunsRevoke
        (revoking_in store.old.present target.now principal) store.old.present (Err refusal) }
    ensures extends { OnOk result (Extends store.old store.new) }
    ensures shape { OnOk result (store.new.present.shape ≡ store.old.present.shape) }
    ensures rows { OnOk result (store.new.present.rows ≡ store.old.present.rows) }
    ensures kept { OnErr result (store.new ≡ store.old) }
{
    match judge_all(alloc, store, target, principal, &REVOKE_CHECKS) {
        Ok(()) => {}
        Err(stop) => return Err(stop),
    }
    take(alloc, store, target, principal)?;
    Ok(Reply::Done)
}
