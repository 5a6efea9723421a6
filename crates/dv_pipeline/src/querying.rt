//! The answer to a query.
ghost use Rattle.std.specs.Prelude.{◌≡◌, IfOk, Ok, Err};
ghost use Rattle.dv_pipeline.specs.Querying.{querying_in, AreReadable, ShowsRows, RunsQuerying};
ghost use Rattle.dv_refusal.specs.declared.refusal.Refusal.{Refusal as Answer};
ghost use Rattle.dv_message.specs.declared.stop.Stop.TheVariants.{Refused};

use crate::query::{Asked, QUERY_CHECKS};
use crate::requests::MOST_SHOWN;
use dv_message::{Stop, asked_numbers, show_row};
use dv_refusal::Refusal;
use dv_request::Reply;
use dv_store::Store;
use dv_value::{Id, Values};
use sqlite_items::Items;
use std::alloc::{AllocError, Global};

/// The rows of these ids, as they are shown.
#[tactic(auto, unfolding(crate::specs::Querying::ShowsRows))]
fn show_rows(
    alloc: Global,
    asked: &Asked<'_>,
    store: &Store,
    ids: &[Id],
) -> Result<Items<Values>, AllocError>
    requires { AreReadable (querying_in store.now.present asked.now) ids.now }
    ensures { IfOk result (ShowsRows (querying_in store.now.present asked.now) ids.now) }
{
    let columns = asked.table.columns.as_slice();
    let numbers = asked_numbers(alloc, &asked.query.columns, columns)?;
    let mut rows = Items::new(alloc);
    for id in ids {
        if let Some(row) = store.row(asked.number, *id) {
            rows.push(show_row(alloc, columns, numbers.as_slice(), *id, row)?)?;
        }
    }
    Ok(rows)
}

/// Answers the query, if each check passes: a page with each row that the user may read.
pub(crate) fn answer_query(alloc: Global, asked: &Asked<'_>, store: &Store) -> Result<Reply, Stop>
    ensures ok { IfOk result (λ reply.
        RunsQuerying (querying_in store.now.present asked.now) (Ok reply)) }
    ensures refused { (refusal : Answer) → result ≡ Err (Refused refusal)
        → RunsQuerying (querying_in store.now.present asked.now) (Err refusal) }
{
    match asked.judge_all(alloc, &QUERY_CHECKS) {
        Ok(()) => {}
        Err(stop) => return Err(stop),
    }
    let ids = asked.ids(alloc, store)?;
    if ids.len() > MOST_SHOWN {
        return Err(Stop::Refused(Refusal::NotBuilt));
    }
    let rows = show_rows(alloc, asked, store, ids.as_slice())?;
    Ok(Reply::Page {
        rows,
        more: false,
        cookie: None,
        total: None,
        over: None,
    })
}
