//! The request that an object without a fault is, by its message.
ghost use Rattle.std.specs.Prelude.{◌≡◌, map, IfOk, codes};
ghost use Rattle.serde_json.specs.View.{view, members_view};
ghost use Rattle.dv_value.specs.Json.{without};
ghost use Rattle.dv_wire.specs.Members.{items_in};
ghost use Rattle.dv_wire.specs.Requests as say;

use crate::member::{flag_at, take_list};
use crate::verb::Verb;
use crate::{administering as admin, asking as ask};
use dv_form::members_of;
use dv_request::Request;
use dv_value::items_with_capacity;
use serde_json::{Map, Value as Json};
use sqlite_items::Items;
use std::alloc::{AllocError, Global};

/// The request that an object without a fault is. Its texts are taken over and not copied.
#[cycle(requests)]
pub(crate) fn request_of(alloc: Global, json: Json) -> Result<Request, AllocError>
    ensures { IfOk result (λ request. request ≡ say.request_of (view json)) }
{
    let verb = verb_at(&json);
    Ok(request_for(alloc, verb, json)?)
}

// What a request asks.
#[tactic(auto, unfolding(crate::specs::Requests::verb_at))]
fn verb_at(json: &Json) -> Verb
    ensures { result ≡ say.verb_at (view json.now) }
{
    match json.get("do").and_then(Json::as_str) {
        Some(word) => Verb::parse(word.as_bytes()).unwrap_or(Verb::WhoAmI),
        None => Verb::WhoAmI,
    }
}

/// The request of a message with these members.
#[cycle(requests)]
#[tactic(auto, unfolding(crate::specs::Requests::request_for))]
pub(crate) fn request_for(alloc: Global, verb: Verb, json: Json) -> Result<Request, AllocError>
    ensures { IfOk result (λ request. request
        ≡ say.request_for verb (view json) (say.requests_at (view json))) }
{
    match verb {
        Verb::Create => ask::create(alloc, json),
        Verb::Retrieve => ask::retrieve(alloc, json),
        Verb::Update => ask::update(alloc, json),
        Verb::Delete => ask::delete(alloc, json),
        Verb::Assign => ask::assign(alloc, json),
        Verb::Grant => ask::grant(alloc, json),
        Verb::Modify => ask::modify(alloc, json),
        Verb::Revoke => ask::revoke(alloc, json),
        Verb::Access => ask::access(alloc, json),
        Verb::Shares => ask::shares(alloc, json),
        Verb::Query => ask::query(alloc, json),
        Verb::Changes => ask::changes(alloc, json),
        Verb::Rollup => ask::rollup(alloc, json),
        Verb::WhoAmI => Ok(Request::WhoAmI),
        Verb::RollupJob => Ok(Request::RollupJob),
        Verb::Trim => Ok(ask::trim(&json)),
        Verb::Multiple => multiple(alloc, json),
        Verb::Transaction => transaction(alloc, json),
        Verb::AddUnit => Ok(admin::add_unit(&json)),
        Verb::MoveUnit => Ok(admin::move_unit(&json)),
        Verb::AddUser => Ok(admin::add_user(&json)),
        Verb::MoveUser => Ok(admin::move_user(&json)),
        Verb::SetEnabled => Ok(admin::set_enabled(&json)),
        Verb::AddTeam => Ok(admin::add_team(&json)),
        Verb::AddMember => Ok(admin::add_member(&json)),
        Verb::RemoveMember => Ok(admin::remove_member(&json)),
        Verb::AddRole => admin::add_role(alloc, json),
        Verb::SetPrivileges => admin::set_privileges(alloc, json),
        Verb::GiveRole => Ok(admin::give_role(&json)),
        Verb::TakeRole => Ok(admin::take_role(&json)),
    }
}

// Several requests, each with a reply of its own.
#[cycle(requests)]
fn multiple(alloc: Global, json: Json) -> Result<Request, AllocError>
    ensures { IfOk result (λ request. request
        ≡ say.request_for Verb.Multiple (view json) (say.requests_at (view json))) }
{
    let continue_ = flag_at(&json, "continue");
    let mut members = members_of(alloc, json);
    Ok(Request::Multiple {
        requests: requests_in(alloc, &mut members)?,
        continue_,
    })
}

// Several requests, of which all are done or none.
#[cycle(requests)]
fn transaction(alloc: Global, json: Json) -> Result<Request, AllocError>
    ensures { IfOk result (λ request. request
        ≡ say.request_for Verb.Transaction (view json) (say.requests_at (view json))) }
{
    let mut members = members_of(alloc, json);
    Ok(Request::Transaction {
        requests: requests_in(alloc, &mut members)?,
    })
}

// The requests in a batch.
#[cycle(requests)]
fn requests_in(alloc: Global, members: &mut Map<String, Json>) -> Result<Items<Request>, AllocError>
    ensures value { IfOk result (λ requests. requests
        ≡ map say.request_of (items_in (codes "requests") (members_view members.old.entries))) }
    ensures rest { members_view members.new.entries
        ≡ without (codes "requests") (members_view members.old.entries) }
{
    match take_list(members, "requests") {
        Some(items) => Ok(requests_of(alloc, items)?),
        None => Ok(Items::new(alloc)),
    }
}

// The requests that items are.
#[cycle(requests)]
fn requests_of(alloc: Global, items: Vec<Json>) -> Result<Items<Request>, AllocError>
    ensures { IfOk result (λ requests. requests ≡ map say.request_of (map view items.items)) }
{
    let mut requests = items_with_capacity(alloc, items.len())?;
    for item in items {
        requests.push(request_of(alloc, item)?)?;
    }
    Ok(requests)
}
