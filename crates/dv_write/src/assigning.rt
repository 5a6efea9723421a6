//! The change of a row's owner: it is checked, then made, with the rows that it reaches.
ghost use Rattle.std.specs.Prelude.{◌≡◌, map, IfOk, OnOk, OnErr, Ok, Err};
ghost use Rattle.dv_work.specs.History.{Extends};
ghost use Rattle.dv_message.specs.Checked.{Answers, Walked};
ghost use Rattle.dv_message.specs.Scenes.{setting_of};
ghost use Rattle.dv_message.specs.declared.stop.Stop.TheVariants.{Refused};
ghost use Rattle.dv_refusal.specs.declared.refusal.Refusal.{Refusal as Answer};
ghost use Rattle.dv_request.specs.declared.reply.Reply.TheVariants as reply;
ghost use Rattle.dv_cascade.specs.Sound.{IsSoundWorld};
ghost use Rattle.dv_write.specs.Assigning.{assigned, assigning_in, assignment_of, AssignSays, RunsAssign, RunsReached};

use crate::change::{Change, Edit, Placed};
use crate::editing::add_touched;
use crate::effect::make;
use crate::reached::{check_each, check_work, reached};
use dv_cascade::Cascading;
use dv_message::{
    Scene, Stop, Target, check_right, check_row, check_shareable, is_owner, refused_if,
};
use dv_refusal::Refusal;
use dv_request::Reply;
use dv_schema::Action;
use dv_store::{OWNER_PLACE, RowKey, Store};
use dv_value::{Id, Value};
use sqlite_items::Items;
use std::alloc::{AllocError, Global};

/// What is checked of an assignment before the rows that it reaches are looked for.
#[derive(Clone, Copy, Debug, PartialEq, Eq)]
pub(crate) enum AssignCheck {
    /// Rows of the table have owners.
    Owned,
    /// The new owner is a user or an owner team.
    Owner,
    /// The row is there.
    Row,
    /// The user may assign the row.
    Right,
}

/// The checks, in the order in which they are made.
const ASSIGN_CHECKS: [AssignCheck; 4] = [
    AssignCheck::Owned,
    AssignCheck::Owner,
    AssignCheck::Row,
    AssignCheck::Right,
];

/// Makes one of the checks.
#[tactic(auto, unfolding(crate::specs::Assigning::AssignSays))]
fn judge(
    alloc: Global,
    store: &Store,
    target: &Target<'_>,
    owner: Id,
    check: AssignCheck,
) -> Result<(), Stop>
    ensures { Answers (AssignSays (assigning_in store.now.present target.now owner) check) result }
{
    match check {
        AssignCheck::Owned => check_shareable(alloc, target.table),
        AssignCheck::Owner => {
            let is_bad = !is_owner(target.scene.directory.units(), owner);
            refused_if(is_bad, Refusal::BadPrincipal)
        }
        AssignCheck::Row => check_row(alloc, store, target),
        AssignCheck::Right => check_right(alloc, store, target, Action::Assign),
    }
}

/// Makes checks in their order, up to the first that fails.
#[tactic(auto, unfolding(dv_message::specs::Checked::AllPass, dv_message::specs::Checked::FirstSays))]
fn judge_all(
    alloc: Global,
    store: &Store,
    target: &Target<'_>,
    owner: Id,
    checks: &[AssignCheck],
) -> Result<(), Stop>
    ensures { Walked (AssignSays (assigning_in store.now.present target.now owner))
        checks.now result }
{
    for check in checks {
        match judge(alloc, store, target, owner, *check) {
            Ok(()) => {}
            Err(stop) => return Err(stop),
        }
    }
    Ok(())
}

/// What an assignment puts into each of its rows.
fn assigned(alloc: Global, scene: &Scene<'_>, owner: Id) -> Result<Items<Placed>, AllocError>
    ensures { IfOk result (λ placed. placed ≡ assigned owner (setting_of scene.now)) }
{
    let mut placed = Items::new(alloc);
    placed.push(Placed {
        place: OWNER_PLACE,
        value: Value::Ref(owner),
    })?;
    add_touched(&mut placed, scene)?;
    Ok(placed)
}

/// The changes of an assignment of some rows.
fn changes_of(
    alloc: Global,
    scene: &Scene<'_>,
    owner: Id,
    set: &[RowKey],
) -> Result<Items<Change>, AllocError>
    ensures { IfOk result (λ changes. changes
        ≡ map (assignment_of owner (setting_of scene.now)) set.now) }
{
    let mut changes = Items::new(alloc);
    for key in set {
        let placed = assigned(alloc, scene, owner)?;
        changes.push(Change {
            key: *key,
            edit: Edit::Set(placed),
        })?;
    }
    Ok(changes)
}

/// Gives the rows that are reached their owner, if they are not too many, the user may assign each of them and no limit is
/// passed.
fn assign_reached(
    alloc: Global,
    store: &mut Store,
    target: &Target<'_>,
    owner: Id,
) -> Result<(), Stop>
    requires sound { IsSoundWorld target.now.scene.definition.now store.old.present }
    ensures ok { OnOk result (RunsReached (assigning_in store.old.present target.now owner)
        store.new.present (Ok reply.Done)) }
    ensures refused { (refusal : Answer) → result ≡ Err (Refused refusal)
        → RunsReached (assigning_in store.old.present target.now owner)
        store.old.present (Err refusal) }
    ensures extends { OnOk result (Extends store.old store.new) }
    ensures shape { OnOk result (store.new.present.shape ≡ store.old.present.shape) }
    ensures kept { OnErr result (store.new ≡ store.old) }
    ensures sound { OnOk result (IsSoundWorld target.now.scene.definition.now
        store.new.present) }
{
    let set = reached(alloc, store, target, Cascading::Assign)?;
    match check_work(set.as_slice()) {
        Ok(()) => {}
        Err(stop) => return Err(stop),
    }
    match check_each(alloc, store, target, Action::Assign, set.as_slice()) {
        Ok(()) => {}
        Err(stop) => return Err(stop),
    }
    let changes = changes_of(alloc, &target.scene, owner, set.as_slice())?;
    make(alloc, store, changes.as_slice())
}

/// Gives a row, and the rows that its assignment reaches, another owner, if each check passes, they are not too many and no
/// limit is passed. The user and the moment of the change are kept in each of the rows, and each takes the next version,
/// by table and id. The store is of the definition, whose lookups name rows that are there, and no row is above itself;
/// this stays so.
///
/// # Errors
///
/// The first check that fails; more than 20,000 rows beside the message's own; the limit that would be passed; or memory
/// ran out. The store is then as it was.
pub fn assign(
    alloc: Global,
    store: &mut Store,
    target: &Target<'_>,
    owner: Id,
) -> Result<Reply, Stop>
    requires sound { IsSoundWorld target.now.scene.definition.now store.old.present }
    ensures ok { IfOk result (λ reply. RunsAssign
        (assigning_in store.old.present target.now owner) store.new.present (Ok reply)) }
    ensures refused { (refusal : Answer) → result ≡ Err (Refused refusal) → RunsAssign
        (assigning_in store.old.present target.now owner) store.old.present (Err refusal) }
    ensures extends { OnOk result (Extends store.old store.new) }
    ensures shape { OnOk result (store.new.present.shape ≡ store.old.present.shape) }
    ensures kept { OnErr result (store.new ≡ store.old) }
    ensures sound { OnOk result (IsSoundWorld target.now.scene.definition.now
        store.new.present) }
{
    match judge_all(alloc, store, target, owner, &ASSIGN_CHECKS) {
        Ok(()) => {}
        Err(stop) => return Err(stop),
    }
    match assign_reached(alloc, store, target, owner) {
        Ok(()) => Ok(Reply::Done),
        Err(stop) => Err(stop),
    }
}
