//! The members of a JSON object, read as the fields of a reply.
use case_notation::{Fault, found};
use dv_value::{Id, Raw, Text, Values};
use serde_json::Value as Json;
use std::alloc::Global;

const NO_FIELD: Fault = Fault::Wrong("a field is missing, or of another kind");

pub fn field<'a>(object: &'a Json, name: &str) -> Result<&'a Json, Fault> {
    match object.get(name) {
        Some(json) => Ok(json),
        None => Err(NO_FIELD),
    }
}

pub fn word<'a>(object: &'a Json, name: &str) -> Result<&'a str, Fault> {
    match field(object, name)? {
        Json::String(text) => Ok(text.as_str()),
        _ => Err(NO_FIELD),
    }
}

pub fn text(alloc: Global, object: &Json, name: &str) -> Result<Text, Fault> {
    Ok(Text::from_str(alloc, word(object, name)?)?)
}

pub fn number(object: &Json, name: &str) -> Result<u64, Fault> {
    found(field(object, name)?.as_u64(), "a field is no number")
}

pub fn count(object: &Json, name: &str) -> Result<u32, Fault> {
    match u32::try_from(number(object, name)?) {
        Ok(count) => Ok(count),
        Err(_) => Err(Fault::Wrong("a number is too large")),
    }
}

pub fn signed(object: &Json, name: &str) -> Result<i32, Fault> {
    let number = found(field(object, name)?.as_i64(), "a field is no number")?;
    match i32::try_from(number) {
        Ok(number) => Ok(number),
        Err(_) => Err(Fault::Wrong("a number is too large")),
    }
}

pub fn flag(object: &Json, name: &str) -> Result<bool, Fault> {
    match field(object, name)? {
        Json::Bool(flag) => Ok(*flag),
        _ => Err(NO_FIELD),
    }
}

pub fn id(object: &Json, name: &str) -> Result<Id, Fault> {
    Ok(Id(u128::from(number(object, name)?)))
}

pub fn list<'a>(object: &'a Json, name: &str) -> Result<&'a [Json], Fault> {
    match field(object, name)? {
        Json::Array(list) => Ok(list.as_slice()),
        _ => Err(NO_FIELD),
    }
}

/// Values under their names.
pub fn row(alloc: Global, json: &Json) -> Result<Values, Fault> {
    match json {
        Json::Object(members) => {
            let values = Values::from_json(alloc, members.clone()?)?;
            found(values, "no raw values")
        }
        _ => Err(NO_FIELD),
    }
}

/// A raw value.
pub fn raw(object: &Json, name: &str) -> Result<Raw, Fault> {
    found(
        Raw::from_json(field(object, name)?.clone()?),
        "no raw value",
    )
}
