//! The rights of a user on a row.
ghost use Rattle.std.specs.Prelude.{◌≡◌, IfOk, IsSome, Ok, Err};
ghost use Rattle.dv_message.specs.Checked.{Answers, Walked};
ghost use Rattle.dv_message.specs.Rows.{row_in};
ghost use Rattle.dv_message.specs.Scenes.{targeted_in};
ghost use Rattle.dv_grant.specs.Accessing.{accessing_in, is_user_if_given, user_fault, AreRightsThere, AreRightsOn, AccessSays, RunsAccess};
ghost use Rattle.dv_refusal.specs.declared.refusal.Refusal.{Refusal as Answer};
ghost use Rattle.dv_message.specs.declared.stop.Stop.TheVariants.{Refused};

use dv_access::rights;
use dv_message::{Stop, Target, check_right, check_row, refused_if};
use dv_refusal::Refusal;
use dv_request::Reply;
use dv_schema::Action;
use dv_store::Store;
use dv_units::Units;
use dv_value::Id;
use std::alloc::Global;

/// What is checked before rights are told.
#[derive(Clone, Copy, Debug, PartialEq, Eq)]
pub(crate) enum AccessCheck {
    /// The user that is asked for is one.
    User,
    /// The row is there.
    Row,
    /// The caller may read it.
    Read,
}

/// The checks, in the order in which they are made.
const ACCESS_CHECKS: [AccessCheck; 3] = [AccessCheck::User, AccessCheck::Row, AccessCheck::Read];

/// Whether an id, where it is given, is that of a user.
fn is_user_if_given(units: &Units, user: Option<Id>) -> bool
    ensures { result ≡ is_user_if_given units.now user }
{
    match user {
        Some(id) => units.enabled(id).is_some(),
        None => true,
    }
}

/// Makes one of the checks.
#[tactic(auto, unfolding(crate::specs::Accessing::AccessSays))]
fn judge(
    alloc: Global,
    store: &Store,
    target: &Target<'_>,
    user: Option<Id>,
    check: AccessCheck,
) -> Result<(), Stop>
    ensures { Answers (AccessSays (accessing_in store.now.present target.now user) check) result }
{
    match check {
        AccessCheck::User => {
            let is_user = is_user_if_given(target.scene.directory.units(), user);
            refused_if(!is_user, Refusal::BadPrincipal)
        }
        AccessCheck::Row => check_row(alloc, store, target),
        AccessCheck::Read => check_right(alloc, store, target, Action::Read),
    }
}

/// Makes checks in their order, up to the first that fails.
#[tactic(auto, unfolding(dv_message::specs::Checked::AllPass, dv_message::specs::Checked::FirstSays))]
fn judge_all(
    alloc: Global,
    store: &Store,
    target: &Target<'_>,
    user: Option<Id>,
    checks: &[AccessCheck],
) -> Result<(), Stop>
    ensures { Walked (AccessSays (accessing_in store.now.present target.now user))
        checks.now result }
{
    for check in checks {
        match judge(alloc, store, target, user, *check) {
            Ok(()) => {}
            Err(stop) => return Err(stop),
        }
    }
    Ok(())
}

/// The rights of the user that is asked for on the row, which is there.
fn rights_there(store: &Store, target: &Target<'_>, user: Option<Id>) -> u32
    requires { IsSome (row_in (targeted_in store.now.present target.now)) }
    ensures { AreRightsThere (accessing_in store.now.present target.now user) result }
{
    let asked = user.unwrap_or(target.scene.user);
    rights(
        target.scene.directory,
        store,
        asked,
        target.number,
        target.id,
    )
}

/// The rights of the user that is asked for on the row; none where it isn't there.
fn rights_on(store: &Store, target: &Target<'_>, user: Option<Id>) -> u32
    ensures { AreRightsOn (accessing_in store.now.present target.now user)
        (row_in (targeted_in store.now.present target.now)) result }
{
    match store.row(target.number, target.id) {
        Some(_) => rights_there(store, target, user),
        None => 0,
    }
}

/// Tells the rights that a user, or else the caller, has on the row that a message names, as a sum. The right to create
/// isn't among them.
///
/// # Errors
///
/// `Refused` with the first check that fails: no user has the id that is given (`BadPrincipal`); the row isn't there
/// (`NotFound`); the caller may not read it (`Denied`). `OutOfMemory`.
pub fn access(
    alloc: Global,
    store: &Store,
    target: &Target<'_>,
    user: Option<Id>,
) -> Result<Reply, Stop>
    ensures ok { IfOk result (λ reply. RunsAccess
        (accessing_in store.now.present target.now user) (Ok reply)) }
    ensures refused { (refusal : Answer) → result ≡ Err (Refused refusal) → RunsAccess
        (accessing_in store.now.present target.now user) (Err refusal) }
{
    match judge_all(alloc, store, target, user, &ACCESS_CHECKS) {
        Ok(()) => {}
        Err(stop) => return Err(stop),
    }
    Ok(Reply::Rights {
        rights: rights_on(store, target, user),
    })
}
