//! The messages that change the directory, member by member.
#![tactic(auto, unfolding(crate::specs::Requests::request_for))]

ghost use Rattle.std.specs.Prelude.{◌≡◌, [], IfOk};
ghost use Rattle.serde_json.specs.View.{view};
ghost use Rattle.dv_wire.specs.Requests as say;

use crate::member::{flag_at, id_at, says_word, take_from};
use crate::verb::Verb;
use dv_form::FromJson;
use dv_request::Request;
use dv_schema::Role;
use serde_json::Value as Json;
use std::alloc::{AllocError, Global};

pub(crate) fn add_unit(json: &Json) -> Request
    ensures { result ≡ say.request_for Verb.AddUnit (view json.now) [] }
{
    Request::AddUnit {
        id: id_at(json, "id"),
        parent: id_at(json, "parent"),
    }
}

pub(crate) fn move_unit(json: &Json) -> Request
    ensures { result ≡ say.request_for Verb.MoveUnit (view json.now) [] }
{
    Request::MoveUnit {
        unit: id_at(json, "unit"),
        parent: id_at(json, "parent"),
    }
}

pub(crate) fn add_user(json: &Json) -> Request
    ensures { result ≡ say.request_for Verb.AddUser (view json.now) [] }
{
    Request::AddUser {
        id: id_at(json, "id"),
        unit: id_at(json, "unit"),
    }
}

pub(crate) fn move_user(json: &Json) -> Request
    ensures { result ≡ say.request_for Verb.MoveUser (view json.now) [] }
{
    Request::MoveUser {
        user: id_at(json, "user"),
        unit: id_at(json, "unit"),
    }
}

pub(crate) fn set_enabled(json: &Json) -> Request
    ensures { result ≡ say.request_for Verb.SetEnabled (view json.now) [] }
{
    Request::SetEnabled {
        user: id_at(json, "user"),
        enabled: flag_at(json, "enabled"),
    }
}

pub(crate) fn add_team(json: &Json) -> Request
    ensures { result ≡ say.request_for Verb.AddTeam (view json.now) [] }
{
    Request::AddTeam {
        id: id_at(json, "id"),
        unit: id_at(json, "unit"),
        access: says_word(json, "kind", "access"),
    }
}

pub(crate) fn add_member(json: &Json) -> Request
    ensures { result ≡ say.request_for Verb.AddMember (view json.now) [] }
{
    Request::AddMember {
        team: id_at(json, "team"),
        user: id_at(json, "user"),
    }
}

pub(crate) fn remove_member(json: &Json) -> Request
    ensures { result ≡ say.request_for Verb.RemoveMember (view json.now) [] }
{
    Request::RemoveMember {
        team: id_at(json, "team"),
        user: id_at(json, "user"),
    }
}

pub(crate) fn add_role(alloc: Global, json: Json) -> Result<Request, AllocError>
    ensures { IfOk result (λ request. request ≡ say.request_for Verb.AddRole (view json) []) }
{
    Ok(Request::AddRole {
        role: Role::from_json(alloc, json)?,
    })
}

pub(crate) fn set_privileges(alloc: Global, json: Json) -> Result<Request, AllocError>
    ensures { IfOk result (λ request. request ≡ say.request_for Verb.SetPrivileges (view json) []) }
{
    Ok(Request::SetPrivileges {
        role: id_at(&json, "role"),
        manage: flag_at(&json, "manage"),
        privileges: take_from(alloc, json, "privileges")?,
    })
}

pub(crate) fn give_role(json: &Json) -> Request
    ensures { result ≡ say.request_for Verb.GiveRole (view json.now) [] }
{
    Request::GiveRole {
        role: id_at(json, "role"),
        to: id_at(json, "to"),
    }
}

pub(crate) fn take_role(json: &Json) -> Request
    ensures { result ≡ say.request_for Verb.TakeRole (view json.now) [] }
{
    Request::TakeRole {
        role: id_at(json, "role"),
        to: id_at(json, "to"),
    }
}
