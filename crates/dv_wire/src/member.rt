//! What an object says under a name. Ids, flags, numbers and words are looked at; texts and lists are taken out.
ghost use Rattle.std.specs.Prelude.{◌≡◌, map, option_map, unwrap_or, IfOk, []};
ghost use Rattle.std.specs.Str.{bytes_eq};
ghost use Rattle.serde_json.specs.Data.{null};
ghost use Rattle.serde_json.specs.Find.{get, as_str};
ghost use Rattle.serde_json.specs.View.{view, members_view};
ghost use Rattle.dv_form.specs.Members.{flag_of, id_of_json, integer_of};
ghost use Rattle.dv_value.specs.Json.{without};
ghost use Rattle.dv_wire.specs.Members as say;

use dv_form::{FromJson, id_in, integer_in, members_of, take_at};
use dv_value::{Id, Raw, Token, items_with_capacity, read_version, take_member};
use serde_json::{Map, Value as Json};
use sqlite_items::Items;
use std::alloc::{AllocError, Global};

/// The id of a member. One that is missing or no id is read as the nil id.
#[tactic(auto, unfolding(dv_form::specs::Members::id_of_json, dv_form::specs::Members::id_in))]
pub(crate) fn id_at(json: &Json, name: &str) -> Id
    ensures { result ≡ id_of_json (unwrap_or (get name.now (view json.now)) null) }
{
    match json.get(name) {
        Some(id) => id_in(id).unwrap_or(Id(0)),
        None => Id(0),
    }
}

/// The id of a member that may be missing.
#[tactic(auto, unfolding(dv_form::specs::Members::id_of_json))]
pub(crate) fn id_if(json: &Json, name: &str) -> Option<Id>
    ensures { result ≡ option_map id_of_json (get name.now (view json.now)) }
{
    match json.get(name) {
        Some(id) => Some(id_in(id).unwrap_or(Id(0))),
        None => None,
    }
}

/// The truth value of a member. One that is missing is read as false.
#[tactic(auto, unfolding(dv_form::specs::Members::flag_of))]
pub(crate) fn flag_at(json: &Json, name: &str) -> bool
    ensures { result ≡ flag_of (unwrap_or (get name.now (view json.now)) null) }
{
    match json.get(name) {
        Some(flag) => flag.as_bool().unwrap_or(false),
        None => false,
    }
}

/// The integer of a member. One that is missing or no integer is read as 0.
#[tactic(auto, unfolding(dv_form::specs::Members::integer_of, dv_form::specs::Members::integer_in))]
pub(crate) fn integer_at(json: &Json, name: &str) -> i64
    ensures { result ≡ integer_of (unwrap_or (get name.now (view json.now)) null) }
{
    match json.get(name) {
        Some(n) => integer_in(n).unwrap_or(0),
        None => 0,
    }
}

/// The integer of a member, with a default where it is missing.
#[tactic(auto, unfolding(dv_form::specs::Members::integer_of))]
pub(crate) fn integer_or(default: i64, json: &Json, name: &str) -> i64
    ensures { result ≡ say.integer_or default name.now (view json.now) }
{
    match json.get(name) {
        Some(n) => integer_in(n).unwrap_or(0),
        None => default,
    }
}

/// Whether a member is this word.
pub(crate) fn says_word(json: &Json, name: &str, word: &str) -> bool
    ensures { result ≡ bytes_eq (unwrap_or (as_str (unwrap_or (get name.now
        (view json.now)) null)) [])
        word.now }
{
    match json.get(name) {
        Some(text) => text.as_str().unwrap_or("") == word,
        None => word.is_empty(),
    }
}

/// The version of a member that may be missing.
#[tactic(auto, unfolding(crate::specs::Members::version_if))]
pub(crate) fn version_if(json: &Json, name: &str) -> Option<u64>
    ensures { result ≡ say.version_if name.now (view json.now) }
{
    read_version(json.get(name).and_then(Json::as_str)?)
}

/// The token of a member that may be missing.
#[tactic(auto, unfolding(crate::specs::Members::token_if))]
pub(crate) fn token_if(json: &Json, name: &str) -> Option<Token>
    ensures { result ≡ say.token_if name.now (view json.now) }
{
    Token::parse(json.get(name).and_then(Json::as_str)?)
}

/// What a member is, which is taken out of an object that isn't needed any more.
pub(crate) fn take_from<T: FromJson>(alloc: Global, json: Json, name: &str) -> Result<T, AllocError>
    ensures { IfOk result (λ value. value ≡ T.of_json (unwrap_or (get name.now (view json)) null)) }
{
    let mut members = members_of(alloc, json);
    take_at(alloc, &mut members, name)
}

// The items of a member that may be missing, which is taken out of its object.
pub(crate) fn take_list(members: &mut Map<String, Json>, name: &str) -> Option<Vec<Json>>
    ensures value { option_map (λ items. map view items.items) result
        ≡ say.list_in name.now (members_view members.old.entries) }
    ensures rest { members_view members.new.entries
        ≡ without name.now (members_view members.old.entries) }
{
    match take_member(members, name) {
        Some(Json::Array(items)) => Some(items),
        _ => None,
    }
}

// The items of a member, which is taken out of its object; none where it is missing.
pub(crate) fn take_items(alloc: Global, members: &mut Map<String, Json>, name: &str) -> Vec<Json>
    ensures value { map view result.items
        ≡ say.items_in name.now (members_view members.old.entries) }
    ensures rest { members_view members.new.entries
        ≡ without name.now (members_view members.old.entries) }
{
    match take_list(members, name) {
        Some(items) => items,
        None => Vec::new(alloc),
    }
}

// The raw value that an item is.
fn raw_item(item: Json) -> Raw
    ensures { result ≡ say.raw_item (view item) }
{
    Raw::from_json(item).unwrap_or(Raw::Null)
}

// The raw values that items are.
pub(crate) fn raws_of(alloc: Global, items: Vec<Json>) -> Result<Items<Raw>, AllocError>
    ensures { IfOk result (λ raws. raws ≡ map say.raw_item (map view items.items)) }
{
    let mut raws = items_with_capacity(alloc, items.len())?;
    for item in items {
        raws.push(raw_item(item))?;
    }
    Ok(raws)
}
