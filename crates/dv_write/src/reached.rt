//! The rows that an assignment or a deletion of a row reaches, how many there may be, and the right to do it to each of
//! them.
ghost use Rattle.std.specs.Prelude.{◌≡◌, IfOk};
ghost use Rattle.dv_store.specs.Keys.{is_row, row_key};
ghost use Rattle.dv_store.specs.Shapes.{shape_of};
ghost use Rattle.dv_message.specs.Checked.{Answers, Walked};
ghost use Rattle.dv_message.specs.Scenes.{targeted_in};
ghost use Rattle.dv_write.specs.Closures.{work_fault, IsClosure, ReachedSays};

use dv_cascade::{Cascading, closure};
use dv_message::{Stop, Target, check_right, of_key, refused_if};
use dv_refusal::Refusal;
use dv_schema::Action;
use dv_store::{RowKey, Store};
use std::alloc::{AllocError, Global};

/// The place of the row that a message names.
pub(crate) fn key_of(target: &Target<'_>) -> RowKey
    ensures { result ≡ row_key target.now.number target.now.id }
{
    RowKey {
        table: target.number,
        id: target.id,
    }
}

/// The rows that what is done to the row of a message reaches, by table and id.
pub(crate) fn reached(
    alloc: Global,
    store: &Store,
    target: &Target<'_>,
    cascading: Cascading,
) -> Result<Vec<RowKey>, AllocError>
    requires { store.now.present.shape ≡ shape_of target.now.scene.definition.now }
    ensures { IfOk result (λ set.
        IsClosure (targeted_in store.now.present target.now) cascading set.items) }
{
    closure(
        alloc,
        store,
        target.scene.definition,
        cascading,
        key_of(target),
    )
}

/// The most rows beside the message's own that an assignment or a deletion visits.
const MOST_VISITS: usize = 20_000;

/// Checks that no more rows are reached than one message may visit.
pub(crate) fn check_work(set: &[RowKey]) -> Result<(), Stop>
    ensures { Answers (λ said. said ≡ work_fault set.now) result }
{
    refused_if(set.len() > MOST_VISITS + 1, Refusal::WorkLimit)
}

/// Whether two places are one row's.
pub(crate) fn is_row(a: RowKey, b: RowKey) -> bool
    ensures { result ≡ is_row a b }
{
    a == b
}

/// Checks that the user may do an action to a row that is reached. The message's own row was judged before.
#[tactic(auto, unfolding(crate::specs::Closures::ReachedSays))]
fn check_one(
    alloc: Global,
    store: &Store,
    target: &Target<'_>,
    action: Action,
    key: RowKey,
) -> Result<(), Stop>
    ensures { Answers (ReachedSays (targeted_in store.now.present target.now) action key) result }
{
    if is_row(key, key_of(target)) {
        return Ok(());
    }
    check_right(alloc, store, &of_key(target, key), action)
}

/// Checks that the user may do an action to each row that is reached, up to the first to which it may not.
#[tactic(auto, unfolding(dv_message::specs::Checked::AllPass, dv_message::specs::Checked::FirstSays))]
pub(crate) fn check_each(
    alloc: Global,
    store: &Store,
    target: &Target<'_>,
    action: Action,
    set: &[RowKey],
) -> Result<(), Stop>
    ensures { Walked (ReachedSays (targeted_in store.now.present target.now) action)
        set.now result }
{
    for key in set {
        match check_one(alloc, store, target, action, *key) {
            Ok(()) => {}
            Err(stop) => return Err(stop),
        }
    }
    Ok(())
}
