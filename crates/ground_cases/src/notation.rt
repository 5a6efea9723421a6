//! How values, kinds, raw values and bytes are written in the case files.
use case_notation::{Fault, found};
use dv_value::{Id, Kind, Raw, Text, Value, read_json};
use sqlite_items::Items;
use std::alloc::{AllocError, Global};

/// Reads a raw value, which is written as JSON.
pub fn read_raw(alloc: Global, text: &str) -> Result<Raw, Fault> {
    match read_json(alloc, text.as_bytes()) {
        Ok(json) => found(Raw::from_json(json), "no raw value"),
        Err(_) => Err(Fault::Wrong("no JSON")),
    }
}

/// Reads a text, which is written as a string of JSON.
pub fn read_text(alloc: Global, text: &str) -> Result<Text, Fault> {
    match read_raw(alloc, text)? {
        Raw::Str(text) => Ok(text),
        _ => Err(Fault::Wrong("no text")),
    }
}

/// Writes a text as a string of JSON.
pub fn write_text(alloc: Global, text: &Text) -> Result<String, AllocError> {
    text.to_json(alloc)?.to_string(alloc)
}

/// Reads a value: a text alone, others behind a word for their kind.
pub fn read_value(alloc: Global, text: &str) -> Result<Value, Fault> {
    if text.starts_with('"') {
        return Ok(Value::Text(read_text(alloc, text)?));
    }
    match text {
        "empty" => Ok(Value::Empty),
        "flag true" => Ok(Value::Flag(true)),
        "flag false" => Ok(Value::Flag(false)),
        _ => read_number(text),
    }
}

// Reads a value that is a number behind a word for its kind.
fn read_number(text: &str) -> Result<Value, Fault> {
    let (kind, held) = text.split_once(' ').unwrap_or((text, ""));
    match kind {
        "whole" => Ok(Value::Whole(held.parse::<i32>()?)),
        "choice" => Ok(Value::Choice(held.parse::<i32>()?)),
        "amount" => Ok(Value::Amount(held.parse::<i64>()?)),
        "moment" => Ok(Value::Moment(held.parse::<i64>()?)),
        "ref" => Ok(Value::Ref(Id(held.parse::<u128>()?))),
        _ => Err(Fault::Wrong("no value")),
    }
}

/// Writes a value as it is read.
pub fn write_value(alloc: Global, value: &Value) -> Result<String, AllocError> {
    match value {
        Value::Empty => String::from_str(alloc, "empty"),
        Value::Flag(true) => String::from_str(alloc, "flag true"),
        Value::Flag(false) => String::from_str(alloc, "flag false"),
        Value::Whole(number) => format!(in alloc; "whole {number}"),
        Value::Choice(number) => format!(in alloc; "choice {number}"),
        Value::Amount(amount) => format!(in alloc; "amount {amount}"),
        Value::Moment(seconds) => format!(in alloc; "moment {seconds}"),
        Value::Text(text) => write_text(alloc, text),
        Value::Ref(id) => format!(in alloc; "ref {}", id.0),
    }
}

/// Reads a kind: its word, and then its limits.
pub fn read_kind(alloc: Global, text: &str) -> Result<Kind, Fault> {
    let (word, limits) = text.split_once(' ').unwrap_or((text, ""));
    match word {
        "flag" => Ok(Kind::Flag),
        "whole" => read_whole(limits),
        "choice" => read_choice(alloc, limits),
        "amount" => Ok(Kind::Amount {
            scale: limits.parse::<u8>()?,
        }),
        "moment" => Ok(Kind::Moment),
        "text" => Ok(Kind::Text {
            max: limits.parse::<u32>()?,
        }),
        "ref" => Ok(Kind::Ref),
        _ => Err(Fault::Wrong("no kind")),
    }
}

fn read_whole(limits: &str) -> Result<Kind, Fault> {
    let (min, max) = limits.split_once(' ').unwrap_or((limits, ""));
    let min = min.parse::<i32>()?;
    let max = max.parse::<i32>()?;
    Ok(Kind::Whole { min, max })
}

fn read_choice(alloc: Global, limits: &str) -> Result<Kind, Fault> {
    let mut options = Items::new(alloc);
    if !limits.is_empty() {
        for word in limits.split(' ') {
            options.push(word.parse::<i32>()?)?;
        }
    }
    Ok(Kind::Choice { options })
}

/// Reads bytes, which are written as hexadecimal digits with spaces where a reader wants them.
pub fn read_bytes(alloc: Global, text: &str) -> Result<Vec<u8>, Fault> {
    let mut bytes = Vec::new(alloc);
    for word in text.split(' ') {
        match hex::decode(alloc, word) {
            Ok(read) => bytes.extend_from_slice(read.as_slice())?,
            Err(_) => return Err(Fault::Wrong("no hexadecimal digits")),
        }
    }
    Ok(bytes)
}
