//! The messages that ask for rows or change them, member by member.
#![tactic(auto, unfolding(crate::specs::Requests::request_for))]

ghost use Rattle.std.specs.Prelude.{◌≡◌, [], IfOk};
ghost use Rattle.serde_json.specs.View.{view};
ghost use Rattle.dv_wire.specs.Requests as say;

use crate::member::{id_at, id_if, integer_at, integer_or, take_from, token_if, version_if};
use crate::querying::query_of;
use crate::verb::Verb;
use dv_form::{members_of, take_at, take_given};
use dv_request::Request;
use serde_json::Value as Json;
use sqlite_items::Boxed;
use std::alloc::{AllocError, Global};

// How many changes are given at most, where the request doesn't say.
const MOST_CHANGES: i64 = 5000;

pub(crate) fn create(alloc: Global, json: Json) -> Result<Request, AllocError>
    ensures { IfOk result (λ request. request ≡ say.request_for Verb.Create (view json) []) }
{
    let id = id_if(&json, "id");
    let mut members = members_of(alloc, json);
    Ok(Request::Create {
        table: take_at(alloc, &mut members, "table")?,
        id,
        values: take_at(alloc, &mut members, "values")?,
    })
}

pub(crate) fn retrieve(alloc: Global, json: Json) -> Result<Request, AllocError>
    ensures { IfOk result (λ request. request ≡ say.request_for Verb.Retrieve (view json) []) }
{
    let id = id_at(&json, "id");
    let mut members = members_of(alloc, json);
    Ok(Request::Retrieve {
        table: take_at(alloc, &mut members, "table")?,
        id,
        columns: take_given(alloc, &mut members, "columns")?,
    })
}

pub(crate) fn update(alloc: Global, json: Json) -> Result<Request, AllocError>
    ensures { IfOk result (λ request. request ≡ say.request_for Verb.Update (view json) []) }
{
    let id = id_at(&json, "id");
    let version = version_if(&json, "version");
    let mut members = members_of(alloc, json);
    Ok(Request::Update {
        table: take_at(alloc, &mut members, "table")?,
        id,
        values: take_at(alloc, &mut members, "values")?,
        version,
    })
}

pub(crate) fn delete(alloc: Global, json: Json) -> Result<Request, AllocError>
    ensures { IfOk result (λ request. request ≡ say.request_for Verb.Delete (view json) []) }
{
    Ok(Request::Delete {
        id: id_at(&json, "id"),
        version: version_if(&json, "version"),
        table: take_from(alloc, json, "table")?,
    })
}

pub(crate) fn assign(alloc: Global, json: Json) -> Result<Request, AllocError>
    ensures { IfOk result (λ request. request ≡ say.request_for Verb.Assign (view json) []) }
{
    Ok(Request::Assign {
        id: id_at(&json, "id"),
        owner: id_at(&json, "owner"),
        table: take_from(alloc, json, "table")?,
    })
}

pub(crate) fn grant(alloc: Global, json: Json) -> Result<Request, AllocError>
    ensures { IfOk result (λ request. request ≡ say.request_for Verb.Grant (view json) []) }
{
    Ok(Request::Grant {
        id: id_at(&json, "id"),
        principal: id_at(&json, "principal"),
        rights: integer_at(&json, "rights"),
        table: take_from(alloc, json, "table")?,
    })
}

pub(crate) fn modify(alloc: Global, json: Json) -> Result<Request, AllocError>
    ensures { IfOk result (λ request. request ≡ say.request_for Verb.Modify (view json) []) }
{
    Ok(Request::Modify {
        id: id_at(&json, "id"),
        principal: id_at(&json, "principal"),
        rights: integer_at(&json, "rights"),
        table: take_from(alloc, json, "table")?,
    })
}

pub(crate) fn revoke(alloc: Global, json: Json) -> Result<Request, AllocError>
    ensures { IfOk result (λ request. request ≡ say.request_for Verb.Revoke (view json) []) }
{
    Ok(Request::Revoke {
        id: id_at(&json, "id"),
        principal: id_at(&json, "principal"),
        table: take_from(alloc, json, "table")?,
    })
}

pub(crate) fn access(alloc: Global, json: Json) -> Result<Request, AllocError>
    ensures { IfOk result (λ request. request ≡ say.request_for Verb.Access (view json) []) }
{
    Ok(Request::Access {
        id: id_at(&json, "id"),
        user: id_if(&json, "user"),
        table: take_from(alloc, json, "table")?,
    })
}

pub(crate) fn shares(alloc: Global, json: Json) -> Result<Request, AllocError>
    ensures { IfOk result (λ request. request ≡ say.request_for Verb.Shares (view json) []) }
{
    Ok(Request::Shares {
        id: id_at(&json, "id"),
        table: take_from(alloc, json, "table")?,
    })
}

pub(crate) fn query(alloc: Global, json: Json) -> Result<Request, AllocError>
    ensures { IfOk result (λ request. request ≡ say.request_for Verb.Query (view json) []) }
{
    Ok(Request::Query {
        query: Boxed::new(alloc, query_of(alloc, json)?)?,
    })
}

pub(crate) fn changes(alloc: Global, json: Json) -> Result<Request, AllocError>
    ensures { IfOk result (λ request. request ≡ say.request_for Verb.Changes (view json) []) }
{
    Ok(Request::Changes {
        token: token_if(&json, "token"),
        count: integer_or(MOST_CHANGES, &json, "count"),
        table: take_from(alloc, json, "table")?,
    })
}

pub(crate) fn rollup(alloc: Global, json: Json) -> Result<Request, AllocError>
    ensures { IfOk result (λ request. request ≡ say.request_for Verb.Rollup (view json) []) }
{
    let id = id_at(&json, "id");
    let mut members = members_of(alloc, json);
    Ok(Request::Rollup {
        table: take_at(alloc, &mut members, "table")?,
        id,
        column: take_at(alloc, &mut members, "column")?,
    })
}

pub(crate) fn trim(json: &Json) -> Request
    ensures { result ≡ say.request_for Verb.Trim (view json.now) [] }
{
    Request::Trim {
        token: version_if(json, "token").unwrap_or(0),
    }
}
