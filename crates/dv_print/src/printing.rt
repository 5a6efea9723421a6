//! Replies as JSON, and as one line of text.
ghost use Rattle.std.specs.Prelude.{◌≡◌, ◌≤◌, codes, map, Some, IfOk};
ghost use Rattle.serde_json.specs.Data.{array, depth};
ghost use Rattle.serde_json.specs.Read.{read, max_depth};
ghost use Rattle.serde_json.specs.View.{view, members_view, items_of};
ghost use Rattle.serde_json.specs.Written.{has_float, compact_text};
ghost use Rattle.dv_value.specs.Printed.{id_data, values_data};
ghost use Rattle.dv_print.specs.Printed.{ok, list_data, text_or_null, reply_data, share_data, change_data, page_members};
ghost use Rattle.dv_print.specs.Printed.{changes_members, rolled_members, caller_members};
ghost use Rattle.dv_print.specs.Printed.{with_item, refused_data};
ghost use Rattle.dv_refusal.specs.Refusals.{refusal_members};

use crate::object::{
    count_or_null, flag_or_null, ids_json, one_json, one_member, succeeded, succeeded_with,
    with_member, words_or_null,
};
use dv_request::{Change, Refusal, Reply, Share};
use dv_value::{Id, Raw, Text, Token, Values, version_json};
use serde_json::{Map, Value as Json};
use std::alloc::{AllocError, Global};

/// Prints a reply as one line of JSON without its line feed: compact, with the members of each object in ascending
/// byte order.
pub fn print_reply(alloc: Global, reply: &Reply) -> Result<Vec<u8>, AllocError>
    ensures text { IfOk result (λ text. text.items ≡ compact_text (reply_data reply.now)) }
    ensures reads_back { IfOk result (λ text. depth (reply_data reply.now) ≤ max_depth
        → read text.items ≡ Some (reply_data reply.now)) }
{
    Ok(reply_json(alloc, reply)?.to_vec(alloc)?)
}

// The reply as JSON.
#[cycle(reply)]
#[tactic(auto, unfolding(crate::specs::Printed::reply_data))]
fn reply_json(alloc: Global, reply: &Reply) -> Result<Json, AllocError>
    ensures { IfOk result (λ json. view json ≡ reply_data reply.now) }
{
    match reply {
        Reply::Done => succeeded(alloc, Map::new(alloc)),
        Reply::Created { id } => succeeded_with(alloc, "id", id.to_json(alloc)?),
        Reply::Found { row } => succeeded_with(alloc, "row", row.to_json(alloc)?),
        Reply::Rights { rights } => succeeded_with(alloc, "rights", Json::from(*rights)),
        Reply::Shares { shares } => {
            succeeded_with(alloc, "shares", shares_json(alloc, shares.as_slice())?)
        }
        Reply::Page {
            rows,
            more,
            cookie,
            total,
            over,
        } => page_json(alloc, rows.as_slice(), *more, cookie, *total, *over),
        Reply::Changes {
            changes,
            more,
            token,
        } => delta_json(alloc, changes.as_slice(), *more, *token),
        Reply::Rolled { state, value } => rolled_json(alloc, *state, value),
        Reply::Calculated { calculated } => {
            succeeded_with(alloc, "calculated", Json::from(*calculated))
        }
        Reply::Caller { user, unit, teams } => caller_json(alloc, *user, *unit, teams.as_slice()),
        Reply::Replies { replies } => {
            succeeded_with(alloc, "replies", replies_json(alloc, replies.as_slice())?)
        }
        Reply::Refused { refusal, item } => refused_json(alloc, refusal, *item),
    }
}

// The replies to the requests of a batch.
#[cycle(reply)]
#[tactic(auto, unfolding(crate::specs::Printed::reply_data))]
fn replies_json(alloc: Global, replies: &[Reply]) -> Result<Json, AllocError>
    ensures { IfOk result (λ json. view json ≡ array (items_of (map reply_data replies.now))) }
{
    let mut list: Vec<Json> = Vec::new(alloc);
    for reply in replies {
        list.push(reply_json(alloc, reply)?)?;
    }
    Ok(Json::Array(list))
}

// A refusal, with the place in the transaction of the request that is refused.
#[tactic(auto, unfolding(crate::specs::Printed::refused_data))]
fn refused_json(alloc: Global, refusal: &Refusal, item: Option<u32>) -> Result<Json, AllocError>
    ensures { IfOk result (λ json. view json ≡ refused_data refusal.now item) }
{
    one_json(
        alloc,
        "refused",
        Json::Object(refused_members(alloc, refusal, item)?),
    )
}

// The members of a refusal, and the place, if there is one, of the request that is refused.
fn refused_members(
    alloc: Global,
    refusal: &Refusal,
    item: Option<u32>,
) -> Result<Map<String, Json>, AllocError>
    ensures { IfOk result (λ members. members_view members.entries
        ≡ with_item item (refusal_members refusal.now)) }
{
    match item {
        Some(item) => with_member(alloc, refusal.members(alloc)?, "item", Json::from(item)),
        None => refusal.members(alloc),
    }
}

// The rights that principals were given on a row, as a list.
fn shares_json(alloc: Global, shares: &[Share]) -> Result<Json, AllocError>
    ensures { IfOk result (λ json. view json ≡ array (items_of (map share_data shares.now))) }
{
    let mut list: Vec<Json> = Vec::new(alloc);
    for share in shares {
        list.push(share_json(alloc, share)?)?;
    }
    Ok(Json::Array(list))
}

// The rights that a principal was given on a row.
#[tactic(auto, unfolding(crate::specs::Printed::share_data))]
fn share_json(alloc: Global, share: &Share) -> Result<Json, AllocError>
    ensures { IfOk result (λ json. view json ≡ share_data share.now) }
{
    let members = one_member(alloc, "direct", Json::from(share.direct))?;
    let members = with_member(alloc, members, "inherited", Json::from(share.inherited))?;
    let principal = share.principal.to_json(alloc)?;
    Ok(Json::Object(with_member(alloc, members, "principal", principal)?))
}

// The rows as a list.
fn rows_json(alloc: Global, rows: &[Values]) -> Result<Json, AllocError>
    ensures { IfOk result (λ json. view json ≡ array (items_of (map values_data rows.now))) }
{
    let mut list: Vec<Json> = Vec::new(alloc);
    for row in rows {
        list.push(row.to_json(alloc)?)?;
    }
    Ok(Json::Array(list))
}

// The reply of a page.
fn page_json(
    alloc: Global,
    rows: &[Values],
    more: bool,
    cookie: &Option<Text>,
    total: Option<u32>,
    over: Option<bool>,
) -> Result<Json, AllocError>
    ensures { IfOk result (λ json. view json
        ≡ ok (page_members (list_data (map values_data rows.now)) more
        (text_or_null cookie.now) total over)) }
{
    let members = one_member(alloc, "cookie", words_or_null(alloc, cookie)?)?;
    let members = with_member(alloc, members, "more", Json::Bool(more))?;
    let members = with_member(alloc, members, "over", flag_or_null(over))?;
    let members = with_member(alloc, members, "rows", rows_json(alloc, rows)?)?;
    let members = with_member(alloc, members, "total", count_or_null(total))?;
    succeeded(alloc, members)
}

// The changes as a list.
fn changes_json(alloc: Global, changes: &[Change]) -> Result<Json, AllocError>
    ensures { IfOk result (λ json. view json ≡ array (items_of (map change_data changes.now))) }
{
    let mut list: Vec<Json> = Vec::new(alloc);
    for change in changes {
        list.push(change_json(alloc, change)?)?;
    }
    Ok(Json::Array(list))
}

// A row as it is now, or a removal.
#[tactic(auto, unfolding(crate::specs::Printed::change_data))]
fn change_json(alloc: Global, change: &Change) -> Result<Json, AllocError>
    ensures { IfOk result (λ json. view json ≡ change_data change.now) }
{
    match change {
        Change::Row { row } => one_json(alloc, "row", row.to_json(alloc)?),
        Change::Removed { id, version } => removal_json(alloc, *id, *version),
    }
}

// The id of a removed row with the version of its removal.
#[tactic(auto, unfolding(crate::specs::Printed::change_data))]
fn removal_json(alloc: Global, id: Id, version: u64) -> Result<Json, AllocError>
    ensures { IfOk result (λ json. view json ≡ change_data (Change.Removed id version)) }
{
    let members = one_member(alloc, "removed", id.to_json(alloc)?)?;
    let version = version_json(alloc, version)?;
    Ok(Json::Object(with_member(alloc, members, "version", version)?))
}

// The reply of a list of changes.
fn delta_json(
    alloc: Global,
    changes: &[Change],
    more: bool,
    token: Token,
) -> Result<Json, AllocError>
    ensures { IfOk result (λ json. view json
        ≡ ok (changes_members (list_data (map change_data changes.now)) more token)) }
{
    let members = one_member(alloc, "changes", changes_json(alloc, changes)?)?;
    let members = with_member(alloc, members, "more", Json::Bool(more))?;
    let members = with_member(alloc, members, "token", token.to_json(alloc)?)?;
    succeeded(alloc, members)
}

// The reply of a calculated rollup.
fn rolled_json(alloc: Global, state: i32, value: &Raw) -> Result<Json, AllocError>
    ensures { IfOk result (λ json. view json ≡ ok (rolled_members state value.now)) }
{
    let members = one_member(alloc, "state", Json::from(state))?;
    succeeded(
        alloc,
        with_member(alloc, members, "value", value.to_json(alloc)?)?,
    )
}

// The reply that tells a caller of itself.
fn caller_json(alloc: Global, user: Id, unit: Id, teams: &[Id]) -> Result<Json, AllocError>
    ensures { IfOk result (λ json. view json
        ≡ ok (caller_members user unit (list_data (map id_data teams.now)))) }
{
    let members = one_member(alloc, "teams", ids_json(alloc, teams)?)?;
    let members = with_member(alloc, members, "unit", unit.to_json(alloc)?)?;
    let members = with_member(alloc, members, "user", user.to_json(alloc)?)?;
    succeeded(alloc, members)
}
