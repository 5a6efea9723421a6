//! The messages that change one row and those that go with it, or the shares on them. The row is found by the name of its
//! table; then the message's own call serves it.
ghost use Rattle.std.specs.Prelude.{◌≡◌, IfOk, OnOk, OnErr, Ok, Err};
ghost use Rattle.dv_work.specs.History.{Extends};
ghost use Rattle.dv_cascade.specs.Sound.{IsSoundWorld};
ghost use Rattle.dv_message.specs.Scenes.{setting_of};
ghost use Rattle.dv_pipeline.specs.Run.{Plays};
ghost use Rattle.dv_refusal.specs.declared.refusal.Refusal.{Refusal as Answer};
ghost use Rattle.dv_request.specs.declared.request.Request.TheVariants as request;
ghost use Rattle.dv_message.specs.declared.stop.Stop.TheVariants.{Refused};

use dv_grant::{grant, modify, revoke};
use dv_message::{Scene, Stop, aim};
use dv_request::Reply;
use dv_store::Store;
use dv_value::{Id, Text, Values};
use dv_write::{assign, delete, update};
use std::alloc::Global;

/// Changes columns of a row.
#[tactic(auto, unfolding(crate::specs::Run::Plays, dv_message::specs::Scenes::OnRow))]
pub(crate) fn run_update(
    alloc: Global,
    store: &mut Store,
    scene: &Scene<'_>,
    name: &Text,
    id: Id,
    values: &Values,
    version: Option<u64>,
) -> Result<Reply, Stop>
    requires { IsSoundWorld scene.now.definition.now store.old.present }
    ensures ok { IfOk result (λ reply. Plays (setting_of scene.now) store.old.present
        (request.Update name.now id values.now version) store.new.present (Ok reply)) }
    ensures refused { (refusal : Answer) → result ≡ Err (Refused refusal)
        → Plays (setting_of scene.now) store.old.present
        (request.Update name.now id values.now version) store.old.present (Err refusal) }
    ensures extends { OnOk result (Extends store.old store.new) }
    ensures shape { OnOk result (store.new.present.shape ≡ store.old.present.shape) }
    ensures sound { OnOk result (IsSoundWorld scene.now.definition.now store.new.present) }
    ensures kept { OnErr result (store.new ≡ store.old) }
{
    match aim(alloc, scene, name, id) {
        Ok(target) => update(alloc, store, &target, values, version),
        Err(stop) => Err(stop),
    }
}

/// Gives a row, and those that go with it, another owner.
#[tactic(auto, unfolding(crate::specs::Run::Plays, dv_message::specs::Scenes::OnRow))]
pub(crate) fn run_assign(
    alloc: Global,
    store: &mut Store,
    scene: &Scene<'_>,
    name: &Text,
    id: Id,
    owner: Id,
) -> Result<Reply, Stop>
    requires { IsSoundWorld scene.now.definition.now store.old.present }
    ensures ok { IfOk result (λ reply. Plays (setting_of scene.now) store.old.present
        (request.Assign name.now id owner) store.new.present (Ok reply)) }
    ensures refused { (refusal : Answer) → result ≡ Err (Refused refusal)
        → Plays (setting_of scene.now) store.old.present
        (request.Assign name.now id owner) store.old.present (Err refusal) }
    ensures extends { OnOk result (Extends store.old store.new) }
    ensures shape { OnOk result (store.new.present.shape ≡ store.old.present.shape) }
    ensures sound { OnOk result (IsSoundWorld scene.now.definition.now store.new.present) }
    ensures kept { OnErr result (store.new ≡ store.old) }
{
    match aim(alloc, scene, name, id) {
        Ok(target) => assign(alloc, store, &target, owner),
        Err(stop) => Err(stop),
    }
}

/// Removes a row and those that go with it.
#[tactic(auto, unfolding(crate::specs::Run::Plays, dv_message::specs::Scenes::OnRow))]
pub(crate) fn run_delete(
    alloc: Global,
    store: &mut Store,
    scene: &Scene<'_>,
    name: &Text,
    id: Id,
    version: Option<u64>,
) -> Result<Reply, Stop>
    requires { IsSoundWorld scene.now.definition.now store.old.present }
    ensures ok { IfOk result (λ reply. Plays (setting_of scene.now) store.old.present
        (request.Delete name.now id version) store.new.present (Ok reply)) }
    ensures refused { (refusal : Answer) → result ≡ Err (Refused refusal)
        → Plays (setting_of scene.now) store.old.present
        (request.Delete name.now id version) store.old.present (Err refusal) }
    ensures extends { OnOk result (Extends store.old store.new) }
    ensures shape { OnOk result (store.new.present.shape ≡ store.old.present.shape) }
    ensures sound { OnOk result (IsSoundWorld scene.now.definition.now store.new.present) }
    ensures kept { OnErr result (store.new ≡ store.old) }
{
    match aim(alloc, scene, name, id) {
        Ok(target) => delete(alloc, store, &target, version),
        Err(stop) => Err(stop),
    }
}

/// Adds rights on a row for a user or a team.
#[tactic(auto, unfolding(crate::specs::Run::Plays, dv_message::specs::Scenes::OnRow))]
pub(crate) fn run_grant(
    alloc: Global,
    store: &mut Store,
    scene: &Scene<'_>,
    name: &Text,
    id: Id,
    principal: Id,
    rights: i64,
) -> Result<Reply, Stop>
    requires { IsSoundWorld scene.now.definition.now store.old.present }
    ensures ok { IfOk result (λ reply. Plays (setting_of scene.now) store.old.present
        (request.Grant name.now id principal rights) store.new.present (Ok reply)) }
    ensures refused { (refusal : Answer) → result ≡ Err (Refused refusal)
        → Plays (setting_of scene.now) store.old.present
        (request.Grant name.now id principal rights) store.old.present (Err refusal) }
    ensures extends { OnOk result (Extends store.old store.new) }
    ensures shape { OnOk result (store.new.present.shape ≡ store.old.present.shape) }
    ensures sound { OnOk result (IsSoundWorld scene.now.definition.now store.new.present) }
    ensures kept { OnErr result (store.new ≡ store.old) }
{
    match aim(alloc, scene, name, id) {
        Ok(target) => grant(alloc, store, &target, principal, rights),
        Err(stop) => Err(stop),
    }
}

/// Sets the rights that a user or a team was given on a row.
#[tactic(auto, unfolding(crate::specs::Run::Plays, dv_message::specs::Scenes::OnRow))]
pub(crate) fn run_modify(
    alloc: Global,
    store: &mut Store,
    scene: &Scene<'_>,
    name: &Text,
    id: Id,
    principal: Id,
    rights: i64,
) -> Result<Reply, Stop>
    requires { IsSoundWorld scene.now.definition.now store.old.present }
    ensures ok { IfOk result (λ reply. Plays (setting_of scene.now) store.old.present
        (request.Modify name.now id principal rights) store.new.present (Ok reply)) }
    ensures refused { (refusal : Answer) → result ≡ Err (Refused refusal)
        → Plays (setting_of scene.now) store.old.present
        (request.Modify name.now id principal rights) store.old.present (Err refusal) }
    ensures extends { OnOk result (Extends store.old store.new) }
    ensures shape { OnOk result (store.new.present.shape ≡ store.old.present.shape) }
    ensures sound { OnOk result (IsSoundWorld scene.now.definition.now store.new.present) }
    ensures kept { OnErr result (store.new ≡ store.old) }
{
    match aim(alloc, scene, name, id) {
        Ok(target) => modify(alloc, store, &target, principal, rights),
        Err(stop) => Err(stop),
    }
}

/// Takes away the rights that a user or a team was given on a row.
#[tactic(auto, unfolding(crate::specs::Run::Plays, dv_message::specs::Scenes::OnRow))]
pub(crate) fn run_revoke(
    alloc: Global,
    store: &mut Store,
    scene: &Scene<'_>,
    name: &Text,
    id: Id,
    principal: Id,
) -> Result<Reply, Stop>
    requires { IsSoundWorld scene.now.definition.now store.old.present }
    ensures ok { IfOk result (λ reply. Plays (setting_of scene.now) store.old.present
        (request.Revoke name.now id principal) store.new.present (Ok reply)) }
    ensures refused { (refusal : Answer) → result ≡ Err (Refused refusal)
        → Plays (setting_of scene.now) store.old.present
        (request.Revoke name.now id principal) store.old.present (Err refusal) }
    ensures extends { OnOk result (Extends store.old store.new) }
    ensures shape { OnOk result (store.new.present.shape ≡ store.old.present.shape) }
    ensures sound { OnOk result (IsSoundWorld scene.now.definition.now store.new.present) }
    ensures kept { OnErr result (store.new ≡ store.old) }
{
    match aim(alloc, scene, name, id) {
        Ok(target) => revoke(alloc, store, &target, principal),
        Err(stop) => Err(stop),
    }
}
