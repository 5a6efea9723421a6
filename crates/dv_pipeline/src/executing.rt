//! One request on rows.
ghost use Rattle.std.specs.Prelude.{◌≡◌, IfOk, IfErr, OnOk, OnErr, Ok, Err, None};
ghost use Rattle.dv_work.specs.History.{Extends};
ghost use Rattle.dv_cascade.specs.Sound.{IsSoundWorld};
ghost use Rattle.dv_pipeline.specs.Requests.{caller_fault};
ghost use Rattle.dv_pipeline.specs.Run.{TellsCaller, Runs};
ghost use Rattle.dv_pipeline.specs.Scenes.{creation_in, query_in, play_in};
ghost use Rattle.dv_refusal.specs.declared.refusal.Refusal.{Refusal as Answer};
ghost use Rattle.dv_message.specs.declared.stop.Stop.TheVariants.{Refused, OutOfMemory};

use crate::caller::tell_caller;
use crate::creating::create;
use crate::creation::Creation;
use crate::query::Asked;
use crate::querying::answer_query;
use crate::reading::{run_access, run_retrieve, run_shares};
use crate::requests::start_fault;
use crate::writing::{run_assign, run_delete, run_grant, run_modify, run_revoke, run_update};
use dv_message::{Scene, Stop, table_at, unknown_table};
use dv_query::Query;
use dv_refusal::Refusal;
use dv_request::{Reply, Request};
use dv_roles::Directory;
use dv_schema::Definition;
use dv_store::Store;
use dv_value::{Id, Text, Values};
use std::alloc::Global;

/// Makes a row.
#[tactic(auto, unfolding(crate::specs::Run::RunsCreation))]
fn run_creation(
    alloc: Global,
    store: &mut Store,
    scene: &Scene<'_>,
    name: &Text,
    chosen: Option<Id>,
    values: &Values,
) -> Result<Reply, Stop>
    requires { IsSoundWorld scene.now.definition.now store.old.present }
    ensures ok { IfOk result (λ reply. creation_in scene.now store.old.present name.now chosen
        values.now store.new.present (Ok reply)) }
    ensures refused { (refusal : Answer) → result ≡ Err (Refused refusal)
        → creation_in scene.now store.old.present name.now chosen values.now
        store.old.present (Err refusal) }
    ensures extends { OnOk result (Extends store.old store.new) }
    ensures shape { OnOk result (store.new.present.shape ≡ store.old.present.shape) }
    ensures sound { OnOk result (IsSoundWorld scene.now.definition.now store.new.present) }
    ensures kept { OnErr result (store.new ≡ store.old) }
{
    let Some((number, table)) = table_at(scene.definition, name) else {
        return Err(unknown_table(alloc, name));
    };
    let creation = Creation {
        scene: *scene,
        number,
        table,
        chosen,
        values,
    };
    create(alloc, store, &creation)
}

/// Answers a query.
#[tactic(auto, unfolding(crate::specs::Run::RunsQuery))]
fn run_query(alloc: Global, store: &Store, scene: &Scene<'_>, query: &Query) -> Result<Reply, Stop>
    ensures ok { IfOk result (λ reply. query_in scene.now store.now.present query.now (Ok reply)) }
    ensures refused { (refusal : Answer) → result ≡ Err (Refused refusal)
        → query_in scene.now store.now.present query.now (Err refusal) }
{
    let Some((number, table)) = table_at(scene.definition, &query.table) else {
        return Err(unknown_table(alloc, &query.table));
    };
    let asked = Asked {
        directory: scene.directory,
        number,
        table,
        user: scene.user,
        definition: scene.definition,
        query,
    };
    answer_query(alloc, &asked, store)
}

/// Tells a user who it is.
fn run_caller(alloc: Global, scene: &Scene<'_>) -> Result<Reply, Stop>
    requires { caller_fault scene.now.directory.now scene.now.user ≡ None }
    ensures ok { IfOk result (TellsCaller scene.now.directory.now scene.now.user) }
    ensures memory { IfErr result (λ stop. stop ≡ OutOfMemory) }
{
    match scene.directory.units().unit_of(scene.user) {
        Some(unit) => Ok(tell_caller(alloc, scene.directory, scene.user, unit)?),
        None => Err(Stop::Refused(Refusal::UnknownCaller)),
    }
}

/// Serves a request that nothing refuses at the start.
#[tactic(auto, unfolding(crate::specs::Run::Plays))]
fn play(
    alloc: Global,
    store: &mut Store,
    scene: &Scene<'_>,
    request: &Request,
) -> Result<Reply, Stop>
    requires enabled { caller_fault scene.now.directory.now scene.now.user ≡ None }
    requires sound { IsSoundWorld scene.now.definition.now store.old.present }
    ensures ok { IfOk result (λ reply.
        play_in scene.now store.old.present request.now store.new.present (Ok reply)) }
    ensures refused { (refusal : Answer) → result ≡ Err (Refused refusal)
        → play_in scene.now store.old.present request.now store.old.present (Err refusal) }
    ensures extends { OnOk result (Extends store.old store.new) }
    ensures shape { OnOk result (store.new.present.shape ≡ store.old.present.shape) }
    ensures sound { OnOk result (IsSoundWorld scene.now.definition.now store.new.present) }
    ensures kept { OnErr result (store.new ≡ store.old) }
{
    match request {
        Request::Create { table, id, values } => {
            run_creation(alloc, store, scene, table, *id, values)
        }
        Request::Retrieve { table, id, columns } => {
            run_retrieve(alloc, store, scene, table, *id, columns)
        }
        Request::Update {
            table,
            id,
            values,
            version,
        } => run_update(alloc, store, scene, table, *id, values, *version),
        Request::Delete { table, id, version } => {
            run_delete(alloc, store, scene, table, *id, *version)
        }
        Request::Assign { table, id, owner } => {
            run_assign(alloc, store, scene, table, *id, *owner)
        }
        Request::Grant {
            table,
            id,
            principal,
            rights,
        } => run_grant(alloc, store, scene, table, *id, *principal, *rights),
        Request::Modify {
            table,
            id,
            principal,
            rights,
        } => run_modify(alloc, store, scene, table, *id, *principal, *rights),
        Request::Revoke {
            table,
            id,
            principal,
        } => run_revoke(alloc, store, scene, table, *id, *principal),
        Request::Access { table, id, user } => {
            run_access(alloc, store, scene, table, *id, *user)
        }
        Request::Shares { table, id } => run_shares(alloc, store, scene, table, *id),
        Request::Query { query } => run_query(alloc, store, scene, query.get()),
        Request::WhoAmI => run_caller(alloc, scene),
        _ => Err(Stop::Refused(Refusal::NotBuilt)),
    }
}

/// Serves a request on rows at a moment: a message on one row, a query for columns of all rows that the user may read,
/// or the question who the user is. Directory, definition and store are of one organisation. The links of the store are
/// sound, and whatever comes of the request, they stay so.
///
/// # Errors
///
/// `Refused` with the first check that fails: no user has the id, or it is disabled; the request may not stand here;
/// it isn't built yet; or what the message itself checks. `OutOfMemory`. The store is then as it was.
#[tactic(auto, unfolding(crate::specs::Run::Runs, crate::specs::Run::Starts))]
pub fn execute(
    alloc: Global,
    store: &mut Store,
    directory: &Directory,
    definition: &Definition,
    user: Id,
    moment: i64,
    request: &Request,
) -> Result<Reply, Stop>
    requires sound { IsSoundWorld definition.now store.old.present }
    ensures ok { IfOk result (λ reply. Runs definition.now directory.now store.old.present
        user moment request.now store.new.present (Ok reply)) }
    ensures refused { (refusal : Answer) → result ≡ Err (Refused refusal)
        → Runs definition.now directory.now store.old.present user moment request.now
        store.old.present (Err refusal) }
    ensures extends { OnOk result (Extends store.old store.new) }
    ensures shape { OnOk result (store.new.present.shape ≡ store.old.present.shape) }
    ensures sound { IsSoundWorld definition.now store.new.present }
    ensures kept { OnErr result (store.new ≡ store.old) }
{
    if let Some(refusal) = start_fault(directory, user, request) {
        return Err(Stop::Refused(refusal));
    }
    let scene = Scene {
        directory,
        definition,
        user,
        moment,
    };
    play(alloc, store, &scene, request)
}
