//! The shares of a row.
ghost use Rattle.std.specs.Prelude.{◌≡◌, IfOk, Ok, Err};
ghost use Rattle.dv_message.specs.Checked.{Answers, Walked};
ghost use Rattle.dv_message.specs.Scenes.{targeted_in};
ghost use Rattle.dv_grant.specs.Listing.{AreShares, SharesSays, RunsShares};
ghost use Rattle.dv_refusal.specs.declared.refusal.Refusal.{Refusal as Answer};
ghost use Rattle.dv_message.specs.declared.stop.Stop.TheVariants.{Refused};

use dv_message::{Stop, Target, check_right, check_row, check_shareable};
use dv_request::{Reply, Share};
use dv_schema::Action;
use dv_store::Store;
use sqlite_items::Items;
use std::alloc::{AllocError, Global};

/// What is checked before shares are told.
#[derive(Clone, Copy, Debug, PartialEq, Eq)]
pub(crate) enum SharesCheck {
    /// Rows of the table have owners.
    Table,
    /// The row is there.
    Row,
    /// The caller may read it.
    Read,
}

/// The checks, in the order in which they are made.
const SHARES_CHECKS: [SharesCheck; 3] = [SharesCheck::Table, SharesCheck::Row, SharesCheck::Read];

/// Makes one of the checks.
#[tactic(auto, unfolding(crate::specs::Listing::SharesSays))]
fn judge(alloc: Global, store: &Store, target: &Target<'_>, check: SharesCheck) -> Result<(), Stop>
    ensures { Answers (SharesSays (targeted_in store.now.present target.now) check) result }
{
    match check {
        SharesCheck::Table => check_shareable(alloc, target.table),
        SharesCheck::Row => check_row(alloc, store, target),
        SharesCheck::Read => check_right(alloc, store, target, Action::Read),
    }
}

/// Makes checks in their order, up to the first that fails.
#[tactic(auto, unfolding(dv_message::specs::Checked::AllPass, dv_message::specs::Checked::FirstSays))]
fn judge_all(
    alloc: Global,
    store: &Store,
    target: &Target<'_>,
    checks: &[SharesCheck],
) -> Result<(), Stop>
    ensures { Walked (SharesSays (targeted_in store.now.present target.now)) checks.now result }
{
    for check in checks {
        match judge(alloc, store, target, *check) {
            Ok(()) => {}
            Err(stop) => return Err(stop),
        }
    }
    Ok(())
}

/// The shares of the row, by ascending ids of those who have them.
fn shares_of(alloc: Global, store: &Store, target: &Target<'_>) -> Result<Items<Share>, AllocError>
    ensures { IfOk result (AreShares (targeted_in store.now.present target.now)) }
{
    let mut listed = Items::new(alloc);
    let mut after = None;
    'shares: while let Some(principal) = store.principal_after(target.number, target.id, after) {
        let (direct, inherited) = store.grant(target.number, target.id, principal);
        listed.push(Share {
            principal,
            direct,
            inherited,
        })?;
        after = Some(principal);
    }
    Ok(listed)
}

/// Tells which users and teams have rights on the row that a message names, with their direct and their inherited rights.
///
/// # Errors
///
/// `Refused` with the first check that fails: rows of the table have no owners (`NotShareable`); the row isn't there
/// (`NotFound`); the caller may not read it (`Denied`). `OutOfMemory`.
pub fn shares(alloc: Global, store: &Store, target: &Target<'_>) -> Result<Reply, Stop>
    ensures ok { IfOk result (λ reply.
        RunsShares (targeted_in store.now.present target.now) (Ok reply)) }
    ensures refused { (refusal : Answer) → result ≡ Err (Refused refusal)
        → RunsShares (targeted_in store.now.present target.now) (Err refusal) }
{
    match judge_all(alloc, store, target, &SHARES_CHECKS) {
        Ok(()) => {}
        Err(stop) => return Err(stop),
    }
    Ok(Reply::Shares {
        shares: shares_of(alloc, store, target)?,
    })
}
