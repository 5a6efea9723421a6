//! The messages that tell of one row. The row is found by the name of its table; then the message's own call answers.
ghost use Rattle.std.specs.Prelude.{◌≡◌, IfOk, Ok, Err};
ghost use Rattle.dv_message.specs.Scenes.{setting_of};
ghost use Rattle.dv_pipeline.specs.Run.{Plays};
ghost use Rattle.dv_refusal.specs.declared.refusal.Refusal.{Refusal as Answer};
ghost use Rattle.dv_request.specs.declared.request.Request.TheVariants as request;
ghost use Rattle.dv_message.specs.declared.stop.Stop.TheVariants.{Refused};

use dv_grant::{access, retrieve, shares};
use dv_message::{Scene, Stop, aim};
use dv_request::Reply;
use dv_store::Store;
use dv_value::{Id, Names, Text};
use std::alloc::Global;

/// Gives a row with the columns that are asked for.
#[tactic(auto, unfolding(crate::specs::Run::Plays, dv_message::specs::Scenes::OnRow))]
pub(crate) fn run_retrieve(
    alloc: Global,
    store: &Store,
    scene: &Scene<'_>,
    name: &Text,
    id: Id,
    names: &Option<Names>,
) -> Result<Reply, Stop>
    ensures ok { IfOk result (λ reply. Plays (setting_of scene.now) store.now.present
        (request.Retrieve name.now id names.now) store.now.present (Ok reply)) }
    ensures refused { (refusal : Answer) → result ≡ Err (Refused refusal)
        → Plays (setting_of scene.now) store.now.present
        (request.Retrieve name.now id names.now) store.now.present (Err refusal) }
{
    match aim(alloc, scene, name, id) {
        Ok(target) => retrieve(alloc, store, &target, names),
        Err(stop) => Err(stop),
    }
}

/// Gives the access rights of a user on a row.
#[tactic(auto, unfolding(crate::specs::Run::Plays, dv_message::specs::Scenes::OnRow))]
pub(crate) fn run_access(
    alloc: Global,
    store: &Store,
    scene: &Scene<'_>,
    name: &Text,
    id: Id,
    asked: Option<Id>,
) -> Result<Reply, Stop>
    ensures ok { IfOk result (λ reply. Plays (setting_of scene.now) store.now.present
        (request.Access name.now id asked) store.now.present (Ok reply)) }
    ensures refused { (refusal : Answer) → result ≡ Err (Refused refusal)
        → Plays (setting_of scene.now) store.now.present
        (request.Access name.now id asked) store.now.present (Err refusal) }
{
    match aim(alloc, scene, name, id) {
        Ok(target) => access(alloc, store, &target, asked),
        Err(stop) => Err(stop),
    }
}

/// Lists who has been given rights on a row.
#[tactic(auto, unfolding(crate::specs::Run::Plays, dv_message::specs::Scenes::OnRow))]
pub(crate) fn run_shares(
    alloc: Global,
    store: &Store,
    scene: &Scene<'_>,
    name: &Text,
    id: Id,
) -> Result<Reply, Stop>
    ensures ok { IfOk result (λ reply. Plays (setting_of scene.now) store.now.present
        (request.Shares name.now id) store.now.present (Ok reply)) }
    ensures refused { (refusal : Answer) → result ≡ Err (Refused refusal)
        → Plays (setting_of scene.now) store.now.present
        (request.Shares name.now id) store.now.present (Err refusal) }
{
    match aim(alloc, scene, name, id) {
        Ok(target) => shares(alloc, store, &target),
        Err(stop) => Err(stop),
    }
}
