//! The removal of a row: it is checked, then made, with the rows that it reaches.
ghost use Rattle.std.specs.Prelude.{◌≡◌, ◌∷◌, [], IfOk, OnOk, OnErr, Ok, Err};
ghost use Rattle.dv_work.specs.History.{Extends};
ghost use Rattle.dv_store.specs.Shapes.{shape_of};
ghost use Rattle.dv_message.specs.Checked.{Answers, Walked};
ghost use Rattle.dv_message.specs.Scenes.{targeted_in};
ghost use Rattle.dv_message.specs.declared.stop.Stop.TheVariants.{Refused};
ghost use Rattle.dv_refusal.specs.declared.refusal.Refusal.{Refusal as Answer};
ghost use Rattle.dv_request.specs.declared.reply.Reply.TheVariants as reply;
ghost use Rattle.dv_cascade.specs.Sound.{IsSoundWorld};
ghost use Rattle.dv_cascade.specs.declared.cascading.Cascading.TheVariants as cascading;
ghost use Rattle.dv_write.specs.Closures.{IsClosure};
ghost use Rattle.dv_write.specs.Deleting.{deleting_in, restrict_fault, AreDeletions, BlockSays, DeleteSays, RunsDelete, RunsReached, RunsRemoval};

use crate::change::Change;
use crate::effect::make;
use crate::kept::check_version;
use crate::losing::losses;
use crate::reached::{check_each, check_work, reached};
use dv_cascade::{Cascading, first_restrict, links_to_clear};
use dv_message::{Stop, Target, check_right, check_row};
use dv_refusal::Refusal;
use dv_request::Reply;
use dv_schema::{Action, Definition};
use dv_store::{RowKey, Store};
use sqlite_items::{Items, at};
use std::alloc::{AllocError, Global};

/// What is checked of a deletion before the rows that it reaches are looked for.
#[derive(Clone, Copy, Debug, PartialEq, Eq)]
pub(crate) enum DeleteCheck {
    /// The row is there.
    Row,
    /// The user may delete the row.
    Right,
    /// The row is at the version that is said.
    Version,
}

/// The checks, in the order in which they are made.
const DELETE_CHECKS: [DeleteCheck; 3] = [
    DeleteCheck::Row,
    DeleteCheck::Right,
    DeleteCheck::Version,
];

/// Makes one of the checks.
#[tactic(auto, unfolding(crate::specs::Deleting::DeleteSays))]
fn judge(
    alloc: Global,
    store: &Store,
    target: &Target<'_>,
    version: Option<u64>,
    check: DeleteCheck,
) -> Result<(), Stop>
    ensures { Answers (DeleteSays (deleting_in store.now.present target.now version) check)
        result }
{
    match check {
        DeleteCheck::Row => check_row(alloc, store, target),
        DeleteCheck::Right => check_right(alloc, store, target, Action::Delete),
        DeleteCheck::Version => check_version(store, target, version),
    }
}

/// Makes checks in their order, up to the first that fails.
#[tactic(auto, unfolding(dv_message::specs::Checked::AllPass, dv_message::specs::Checked::FirstSays))]
fn judge_all(
    alloc: Global,
    store: &Store,
    target: &Target<'_>,
    version: Option<u64>,
    checks: &[DeleteCheck],
) -> Result<(), Stop>
    ensures { Walked (DeleteSays (deleting_in store.now.present target.now version))
        checks.now result }
{
    for check in checks {
        match judge(alloc, store, target, version, *check) {
            Ok(()) => {}
            Err(stop) => return Err(stop),
        }
    }
    Ok(())
}

/// Tells the relationship that blocks a removal, if one does.
fn tell_restrict(alloc: Global, definition: &Definition, first: Option<u16>) -> Result<(), Stop>
    ensures { Answers (λ said. said ≡ restrict_fault definition.now first) result }
{
    let Some(number) = first else {
        return Ok(());
    };
    let Some(relationship) = at(definition.relationships(), usize::from(number)) else {
        return Ok(());
    };
    Err(Stop::Refused(Refusal::Restricted {
        relationship: relationship.name.copy(alloc)?,
    }))
}

/// Checks that no row outside a set holds a row of it by a relationship that restricts removals.
fn check_blocked(
    alloc: Global,
    store: &Store,
    target: &Target<'_>,
    set: &[RowKey],
) -> Result<(), Stop>
    requires { store.now.present.shape ≡ shape_of target.now.scene.definition.now }
    ensures { Walked (BlockSays (targeted_in store.now.present target.now)) (set.now ∷ [])
        result }
{
    let first = first_restrict(alloc, store, target.scene.definition, set)?;
    tell_restrict(alloc, target.scene.definition, first)
}

/// The changes of the removal of the rows that a deletion reaches: they go, and rows outside lose their lookups of them.
fn changes_of(
    alloc: Global,
    store: &Store,
    target: &Target<'_>,
    set: &[RowKey],
) -> Result<Items<Change>, AllocError>
    requires shape { store.now.present.shape ≡ shape_of target.now.scene.definition.now }
    requires closure { IsClosure (targeted_in store.now.present target.now) cascading.Delete
        set.now }
    ensures { IfOk result (AreDeletions (targeted_in store.now.present target.now) set.now) }
{
    let lookups = links_to_clear(alloc, store, target.scene.definition, set)?;
    Ok(losses(alloc, &target.scene, set, lookups.as_slice())?)
}

/// Removes the rows that a deletion reaches, if none is held by a row outside and no limit is passed. Rows outside lose
/// their lookups of them.
fn remove_rows(
    alloc: Global,
    store: &mut Store,
    target: &Target<'_>,
    version: Option<u64>,
    set: &[RowKey],
) -> Result<(), Stop>
    requires sound { IsSoundWorld target.now.scene.definition.now store.old.present }
    requires closure { IsClosure (targeted_in store.old.present target.now) cascading.Delete
        set.now }
    ensures ok { OnOk result (RunsRemoval (deleting_in store.old.present target.now version)
        set.now store.new.present (Ok reply.Done)) }
    ensures refused { (refusal : Answer) → result ≡ Err (Refused refusal)
        → RunsRemoval (deleting_in store.old.present target.now version)
        set.now store.old.present (Err refusal) }
    ensures extends { OnOk result (Extends store.old store.new) }
    ensures shape { OnOk result (store.new.present.shape ≡ store.old.present.shape) }
    ensures kept { OnErr result (store.new ≡ store.old) }
    ensures sound { OnOk result (IsSoundWorld target.now.scene.definition.now
        store.new.present) }
{
    let changes = changes_of(alloc, store, target, set)?;
    match check_blocked(alloc, store, target, set) {
        Ok(()) => {}
        Err(stop) => return Err(stop),
    }
    make(alloc, store, changes.as_slice())
}

/// Removes the rows that are reached, if they are not too many, the user may delete each of them, none is held by a row
/// outside and no limit is passed.
fn delete_reached(
    alloc: Global,
    store: &mut Store,
    target: &Target<'_>,
    version: Option<u64>,
) -> Result<(), Stop>
    requires sound { IsSoundWorld target.now.scene.definition.now store.old.present }
    ensures ok { OnOk result (RunsReached (deleting_in store.old.present target.now version)
        store.new.present (Ok reply.Done)) }
    ensures refused { (refusal : Answer) → result ≡ Err (Refused refusal)
        → RunsReached (deleting_in store.old.present target.now version)
        store.old.present (Err refusal) }
    ensures extends { OnOk result (Extends store.old store.new) }
    ensures shape { OnOk result (store.new.present.shape ≡ store.old.present.shape) }
    ensures kept { OnErr result (store.new ≡ store.old) }
    ensures sound { OnOk result (IsSoundWorld target.now.scene.definition.now
        store.new.present) }
{
    let set = reached(alloc, store, target, Cascading::Delete)?;
    match check_work(set.as_slice()) {
        Ok(()) => {}
        Err(stop) => return Err(stop),
    }
    match check_each(alloc, store, target, Action::Delete, set.as_slice()) {
        Ok(()) => {}
        Err(stop) => return Err(stop),
    }
    remove_rows(alloc, store, target, version, set.as_slice())
}

/// Removes a row, and the rows that its deletion reaches, if each check passes, they are not too many and no limit is
/// passed. Each of them takes the next version, by table and id, and on a table with tracking leaves a removal of that
/// version. Rows outside whose lookups name a removed row lose these lookups, where the relationship says so: they
/// become empty, the user and the moment of the change are kept, and the row takes its next version in the same order.
/// The store is of the definition, whose lookups name rows that are there, and no row is above itself; this stays so.
///
/// # Errors
///
/// The first check that fails; more than 20,000 rows beside the message's own; a relationship by which a row outside
/// holds a row that would go; or the limit that would be passed; or memory ran out. The store is then as it was.
pub fn delete(
    alloc: Global,
    store: &mut Store,
    target: &Target<'_>,
    version: Option<u64>,
) -> Result<Reply, Stop>
    requires sound { IsSoundWorld target.now.scene.definition.now store.old.present }
    ensures ok { IfOk result (λ reply. RunsDelete
        (deleting_in store.old.present target.now version) store.new.present (Ok reply)) }
    ensures refused { (refusal : Answer) → result ≡ Err (Refused refusal) → RunsDelete
        (deleting_in store.old.present target.now version) store.old.present (Err refusal) }
    ensures extends { OnOk result (Extends store.old store.new) }
    ensures shape { OnOk result (store.new.present.shape ≡ store.old.present.shape) }
    ensures kept { OnErr result (store.new ≡ store.old) }
    ensures sound { OnOk result (IsSoundWorld target.now.scene.definition.now
        store.new.present) }
{
    match judge_all(alloc, store, target, version, &DELETE_CHECKS) {
        Ok(()) => {}
        Err(stop) => return Err(stop),
    }
    match delete_reached(alloc, store, target, version) {
        Ok(()) => Ok(Reply::Done),
        Err(stop) => Err(stop),
    }
}
