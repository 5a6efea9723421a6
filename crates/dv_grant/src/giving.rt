//! What is checked before rights on a row are granted or modified.
ghost use Rattle.std.specs.Prelude.{◌≡◌};
ghost use Rattle.dv_access.specs.Rights.{has_right};
ghost use Rattle.dv_message.specs.Checked.{Answers, Walked};
ghost use Rattle.dv_message.specs.Rights.{RightSays};
ghost use Rattle.dv_message.specs.Scenes.{targeted_in};
ghost use Rattle.dv_grant.specs.Granting.{granting_in, mask_of, can_be_given, rights_fault, OfGiven, GrantSays};

use crate::revoking::check_principal;
use dv_access::right_of;
use dv_message::{Stop, Target, check_right, check_row, check_shareable};
use dv_refusal::Refusal;
use dv_schema::Action;
use dv_store::Store;
use dv_value::{Id, Text};
use std::alloc::Global;

/// All rights that can be given: each but that to create rows.
const ALL_RIGHTS: u32 = 851_991;

/// What is checked before rights are granted or modified.
#[derive(Clone, Copy, Debug, PartialEq, Eq)]
pub(crate) enum GrantCheck {
    /// Rows of the table have owners.
    Table,
    /// The principal is a user or a team.
    Principal,
    /// The rights can be given.
    Rights,
    /// The row is there.
    Row,
    /// The caller may share it.
    Share,
    /// Where the right to do this is given, the caller has it.
    Given(Action),
}

/// The checks, in the order in which they are made.
pub(crate) const GRANT_CHECKS: [GrantCheck; 12] = [
    GrantCheck::Table,
    GrantCheck::Principal,
    GrantCheck::Rights,
    GrantCheck::Row,
    GrantCheck::Share,
    GrantCheck::Given(Action::Read),
    GrantCheck::Given(Action::Write),
    GrantCheck::Given(Action::Append),
    GrantCheck::Given(Action::AppendTo),
    GrantCheck::Given(Action::Delete),
    GrantCheck::Given(Action::Share),
    GrantCheck::Given(Action::Assign),
];

/// The rights that a number means, each a bit; one below zero, or above all rights together, means none.
pub(crate) fn mask_of(rights: i64) -> u32
    ensures { result ≡ mask_of rights }
{
    if rights < 0 || rights > i64::from(ALL_RIGHTS) {
        return 0;
    }
    rights as u32
}

/// Whether rights are some of those that can be given.
fn can_be_given(mask: u32) -> bool
    ensures { result ≡ can_be_given mask }
{
    mask > 0 && mask & ALL_RIGHTS == mask
}

/// Whether rights have the right to do an action.
fn has_right(mask: u32, action: Action) -> bool
    ensures { result ≡ has_right mask action }
{
    mask / right_of(action) % 2 == 1
}

/// Checks that a number means rights that can be given.
fn check_rights(alloc: Global, rights: i64) -> Result<(), Stop>
    ensures { Answers (λ said. said ≡ rights_fault rights) result }
{
    if can_be_given(mask_of(rights)) {
        return Ok(());
    }
    Err(Stop::Refused(Refusal::OutOfRange {
        column: Text::from_str(alloc, "rights")?,
    }))
}

/// Checks that the caller has the right to do an action, where it is given.
fn check_given(
    alloc: Global,
    store: &Store,
    target: &Target<'_>,
    mask: u32,
    action: Action,
) -> Result<(), Stop>
    ensures { Answers (OfGiven (has_right mask action)
        (RightSays (targeted_in store.now.present target.now) action)) result }
{
    if !has_right(mask, action) {
        return Ok(());
    }
    check_right(alloc, store, target, action)
}

/// Makes one of the checks.
#[tactic(auto, unfolding(crate::specs::Granting::GrantSays))]
fn judge(
    alloc: Global,
    store: &Store,
    target: &Target<'_>,
    principal: Id,
    rights: i64,
    check: GrantCheck,
) -> Result<(), Stop>
    ensures { Answers (GrantSays (granting_in store.now.present target.now principal rights)
        check) result }
{
    match check {
        GrantCheck::Table => check_shareable(alloc, target.table),
        GrantCheck::Principal => check_principal(target.scene.directory.units(), principal),
        GrantCheck::Rights => check_rights(alloc, rights),
        GrantCheck::Row => check_row(alloc, store, target),
        GrantCheck::Share => check_right(alloc, store, target, Action::Share),
        GrantCheck::Given(action) => check_given(alloc, store, target, mask_of(rights), action),
    }
}

/// Makes checks in their order, up to the first that fails.
#[tactic(auto, unfolding(dv_message::specs::Checked::AllPass, dv_message::specs::Checked::FirstSays))]
pub(crate) fn judge_all(
    alloc: Global,
    store: &Store,
    target: &Target<'_>,
    principal: Id,
    rights: i64,
    checks: &[GrantCheck],
) -> Result<(), Stop>
    ensures { Walked (GrantSays (granting_in store.now.present target.now principal rights))
        checks.now result }
{
    for check in checks {
        match judge(alloc, store, target, principal, rights, *check) {
            Ok(()) => {}
            Err(stop) => return Err(stop),
        }
    }
    Ok(())
}
