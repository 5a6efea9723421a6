//! JSON objects and values that several replies share.
ghost use Rattle.std.specs.Prelude.{◌≡◌, codes, map, IfOk};
ghost use Rattle.serde_json.specs.Data.{array, member, no_members, put};
ghost use Rattle.serde_json.specs.View.{view, members_view, items_of};
ghost use Rattle.dv_value.specs.Printed.{id_data, text_data};
ghost use Rattle.dv_print.specs.Printed.{one, ok, bool_or_null, number_or_null, text_or_null};

use dv_value::{Id, Text, add_member};
use serde_json::{Map, Value as Json};
use std::alloc::{AllocError, Global};

// An object of one member.
pub(crate) fn one_member(
    alloc: Global,
    name: &str,
    value: Json,
) -> Result<Map<String, Json>, AllocError>
    ensures { IfOk result (λ members. members_view members.entries
        ≡ member name.now (view value) no_members) }
{
    let mut members: Map<String, Json> = Map::new(alloc);
    add_member(alloc, &mut members, name, value)?;
    Ok(members)
}

// The members with one more, or with another value at its name.
pub(crate) fn with_member(
    alloc: Global,
    mut members: Map<String, Json>,
    name: &str,
    value: Json,
) -> Result<Map<String, Json>, AllocError>
    ensures { IfOk result (λ all. members_view all.entries
        ≡ put name.now (view value) (members_view members.entries)) }
{
    add_member(alloc, &mut members, name, value)?;
    Ok(members)
}

// An object of one member, as JSON.
pub(crate) fn one_json(alloc: Global, name: &str, value: Json) -> Result<Json, AllocError>
    ensures { IfOk result (λ json. view json ≡ one name.now (view value)) }
{
    Ok(Json::Object(one_member(alloc, name, value)?))
}

// The reply of a success that says these members.
pub(crate) fn succeeded(alloc: Global, members: Map<String, Json>) -> Result<Json, AllocError>
    ensures { IfOk result (λ json. view json ≡ ok (members_view members.entries)) }
{
    one_json(alloc, "ok", Json::Object(members))
}

// The reply of a success that says one member.
pub(crate) fn succeeded_with(alloc: Global, name: &str, value: Json) -> Result<Json, AllocError>
    ensures { IfOk result (λ json. view json ≡ ok (member name.now (view value) no_members)) }
{
    one_json(alloc, "ok", one_json(alloc, name, value)?)
}

// A truth value, or null.
pub(crate) fn flag_or_null(flag: Option<bool>) -> Json
    ensures { view result ≡ bool_or_null flag }
{
    match flag {
        Some(flag) => Json::Bool(flag),
        None => Json::Null,
    }
}

// A number, or null.
pub(crate) fn count_or_null(number: Option<u32>) -> Json
    ensures { view result ≡ number_or_null number }
{
    match number {
        Some(number) => Json::from(number),
        None => Json::Null,
    }
}

// A text, or null.
pub(crate) fn words_or_null(alloc: Global, text: &Option<Text>) -> Result<Json, AllocError>
    ensures { IfOk result (λ json. view json ≡ text_or_null text.now) }
{
    match text {
        Some(text) => text.to_json(alloc),
        None => Ok(Json::Null),
    }
}

// The ids as a list.
pub(crate) fn ids_json(alloc: Global, ids: &[Id]) -> Result<Json, AllocError>
    ensures { IfOk result (λ json. view json ≡ array (items_of (map id_data ids.now))) }
{
    let mut list: Vec<Json> = Vec::new(alloc);
    for id in ids {
        list.push(id.to_json(alloc)?)?;
    }
    Ok(Json::Array(list))
}
