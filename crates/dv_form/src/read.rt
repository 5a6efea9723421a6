//! Reading a JSON value of a known form: it is taken apart, member by member and item by item.

ghost use Rattle.std.specs.Prelude.{◌≡◌, ℕ, List, false, map, option_map, unwrap_or, IfOk};
ghost use Rattle.std.specs.Str.{bytes_eq};
ghost use Rattle.serde_json.specs.Data.{null};
ghost use Rattle.serde_json.specs.Find.{get, get_member};
ghost use Rattle.serde_json.specs.View.{view, members_view};
ghost use Rattle.dv_value.specs.Json.{without};
ghost use Rattle.dv_form.specs.Members as say;

use dv_value::{Id, Text, Values, items_with_capacity, take_member};
use serde_json::{Map, Value as Json};
use sqlite_items::Items;
use std::alloc::{AllocError, Global};

/// A type that is read from JSON of its form, which is taken apart: its texts are moved and not copied. JSON of
/// another form is rejected before it is read, so what it gives doesn't matter.
pub trait FromJson: Drop {
    ghost use Rattle.serde_json.specs.Data.{Data};

    ghost of_json: { Data → Self };

    fn from_json(alloc: Global, json: Json) -> Result<Self, AllocError>
        ensures { IfOk result (λ value. value ≡ of_json (view json)) };
}

/// The members of an object. What isn't an object has none.
#[tactic(auto, using(crate::proofs::Reading::taken), unfolding(crate::specs::Members::members_in))]
pub fn members_of(alloc: Global, json: Json) -> Map<String, Json>
    ensures members { members_view result.entries ≡ say.members_in (view json) }
    ensures each { (name : List ℕ)
        → get_member name (members_view result.entries) ≡ get name (view json) }
{
    match json {
        Json::Object(members) => members,
        _ => Map::new(alloc),
    }
}

/// What a member is, which is taken out of its object. Where it is missing, what `null` is.
#[tactic(auto, using(crate::proofs::Reading::taken))]
pub fn take_at<T: FromJson>(
    alloc: Global,
    members: &mut Map<String, Json>,
    name: &str,
) -> Result<T, AllocError>
    ensures value { IfOk result (λ value. value
        ≡ T.of_json (unwrap_or (get_member name.now (members_view members.old.entries)) null)) }
    ensures rest { members_view members.new.entries
        ≡ without name.now (members_view members.old.entries) }
    ensures others { (other : List ℕ) → bytes_eq other name.now ≡ false
        → get_member other (members_view members.new.entries)
        ≡ get_member other (members_view members.old.entries) }
{
    match take_member(members, name) {
        Some(value) => T::from_json(alloc, value),
        None => T::from_json(alloc, Json::Null),
    }
}

/// What a member is, which is taken out of its object, where it is given.
#[tactic(auto, using(crate::proofs::Reading::taken))]
pub fn take_given<T: FromJson>(
    alloc: Global,
    members: &mut Map<String, Json>,
    name: &str,
) -> Result<Option<T>, AllocError>
    ensures value { IfOk result (λ value. value
        ≡ option_map T.of_json (get_member name.now (members_view members.old.entries))) }
    ensures rest { members_view members.new.entries
        ≡ without name.now (members_view members.old.entries) }
    ensures others { (other : List ℕ) → bytes_eq other name.now ≡ false
        → get_member other (members_view members.new.entries)
        ≡ get_member other (members_view members.old.entries) }
{
    match take_member(members, name) {
        Some(value) => Ok(Some(T::from_json(alloc, value)?)),
        None => Ok(None),
    }
}

impl FromJson for bool {
    ghost use Rattle.dv_form.specs.Members.{flag_of};

    ghost of_json = { flag_of };

    fn from_json(_alloc: Global, json: Json) -> Result<bool, AllocError> {
        Ok(flag_of(&json))
    }
}

impl FromJson for Id {
    ghost use Rattle.dv_form.specs.Members.{id_of_json};

    ghost of_json = { id_of_json };

    fn from_json(_alloc: Global, json: Json) -> Result<Id, AllocError> {
        Ok(id_of_json(&json))
    }
}

impl FromJson for i64 {
    ghost use Rattle.dv_form.specs.Members.{integer_of};

    ghost of_json = { integer_of };

    fn from_json(_alloc: Global, json: Json) -> Result<i64, AllocError> {
        Ok(integer_of(&json))
    }
}

impl FromJson for i32 {
    ghost use Rattle.dv_form.specs.Members.{short_of};

    ghost of_json = { short_of };

    fn from_json(_alloc: Global, json: Json) -> Result<i32, AllocError> {
        Ok(short_of(&json))
    }
}

impl FromJson for u8 {
    ghost use Rattle.dv_form.specs.Members.{natural_below};

    ghost of_json = { natural_below 256 };

    fn from_json(_alloc: Global, json: Json) -> Result<u8, AllocError> {
        Ok(byte_of(&json))
    }
}

impl FromJson for u32 {
    ghost use Rattle.dv_form.specs.Members.{natural_below};

    ghost of_json = { natural_below 4294967296 };

    fn from_json(_alloc: Global, json: Json) -> Result<u32, AllocError> {
        Ok(count_of(&json))
    }
}

impl FromJson for usize {
    ghost use Rattle.dv_form.specs.Members.{natural_of};

    ghost of_json = { natural_of };

    fn from_json(_alloc: Global, json: Json) -> Result<usize, AllocError> {
        Ok(natural_of(&json) as usize)
    }
}

impl FromJson for Text {
    ghost use Rattle.dv_form.specs.Members.{text_of};

    ghost of_json = { text_of };

    #[tactic(auto, unfolding(crate::specs::Members::text_of, crate::specs::Members::text_in))]
    fn from_json(alloc: Global, json: Json) -> Result<Text, AllocError> {
        match json {
            Json::String(text) => Ok(Text::from_string(text)),
            Json::Null | Json::Bool(_) | Json::Number(_) | Json::Array(_) | Json::Object(_) => {
                Ok(Text::new(alloc))
            }
        }
    }
}

impl FromJson for Values {
    ghost use Rattle.dv_form.specs.Members.{raw_values_of};

    ghost of_json = { raw_values_of };

    #[tactic(auto, unfolding(crate::specs::Members::raw_values_of))]
    fn from_json(alloc: Global, json: Json) -> Result<Values, AllocError> {
        match json {
            Json::Object(members) => match Values::from_json(alloc, members)? {
                Some(values) => Ok(values),
                None => Ok(Values::new(alloc)),
            },
            _ => Ok(Values::new(alloc)),
        }
    }
}

impl<T: FromJson> FromJson for Items<T> {
    ghost use Rattle.std.specs.Prelude.{map};
    ghost use Rattle.dv_form.specs.Members.{list_of};

    ghost of_json = { λ d. map T.of_json (list_of d) };

    fn from_json(alloc: Global, json: Json) -> Result<Items<T>, AllocError> {
        read_items(alloc, items_of(alloc, json))
    }
}

/// The items of a list. What isn't a list has none.
#[tactic(auto, unfolding(crate::specs::Members::list_of))]
pub fn items_of(alloc: Global, json: Json) -> Vec<Json>
    ensures { map view result.items ≡ say.list_of (view json) }
{
    match json {
        Json::Array(items) => items,
        _ => Vec::new(alloc),
    }
}

// What each item of a list is.
fn read_items<T: FromJson>(alloc: Global, items: Vec<Json>) -> Result<Items<T>, AllocError>
    ensures { IfOk result (λ list. list ≡ map T.of_json (map view items.items)) }
{
    let mut list = items_with_capacity(alloc, items.len())?;
    for item in items {
        list.push(T::from_json(alloc, item)?)?;
    }
    Ok(list)
}

// The truth value that a value is, else false.
#[tactic(auto, unfolding(crate::specs::Members::flag_of))]
fn flag_of(json: &Json) -> bool
    ensures { result ≡ say.flag_of (view json.now) }
{
    json.as_bool().unwrap_or(false)
}

// The id that a value is, else the nil one.
#[tactic(auto, unfolding(crate::specs::Members::id_of_json))]
fn id_of_json(json: &Json) -> Id
    ensures { result ≡ say.id_of_json (view json.now) }
{
    crate::members::id_in(json).unwrap_or(Id(0))
}

// The integer of 64 bits that a value is, else 0.
#[tactic(auto, unfolding(crate::specs::Members::integer_of))]
fn integer_of(json: &Json) -> i64
    ensures { result ≡ say.integer_of (view json.now) }
{
    crate::members::integer_in(json).unwrap_or(0)
}

// The integer of 32 bits that a value is, else 0.
fn short_of(json: &Json) -> i32
    ensures { result ≡ say.short_of (view json.now) }
{
    i32::try_from(integer_of(json)).unwrap_or(0)
}

// The natural number of 64 bits that a value is, else 0.
#[tactic(auto, unfolding(crate::specs::Members::natural_of))]
fn natural_of(json: &Json) -> u64
    ensures { result ≡ say.natural_of (view json.now) }
{
    json.as_u64().unwrap_or(0)
}

/// The natural number of 8 bits that a value is, else 0.
#[tactic(auto, using(crate::proofs::Shorts::natural_narrowed), unfolding(crate::specs::Members::natural_below))]
pub fn byte_of(json: &Json) -> u8
    ensures { result ≡ say.natural_below 256 (view json.now) }
{
    u8::try_from(natural_of(json)).unwrap_or(0)
}

// The natural number of 32 bits that a value is, else 0.
#[tactic(auto, using(crate::proofs::Shorts::natural_narrowed), unfolding(crate::specs::Members::natural_below))]
fn count_of(json: &Json) -> u32
    ensures { result ≡ say.natural_below 4294967296 (view json.now) }
{
    u32::try_from(natural_of(json)).unwrap_or(0)
}
