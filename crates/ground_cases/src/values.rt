//! Cases of values: their spelling, their order, and the raw values that kinds type.
use crate::limits::{has_scale, has_spelling, is_of_kind};
use crate::notation::{read_bytes, read_kind, read_raw, read_value, write_value};
use case_notation::Fault;
use dv_value::{TakeFault, TypeFault, Value, compare, put_value, raw_of, take_value, type_raw};
use std::alloc::{AllocError, Global};
use std::cmp::Ordering;

/// The spelling of a value, or of several that follow one another. Where it is the wanted one it is written as that.
pub fn spelled(alloc: Global, input: &str, wanted: &str) -> Result<String, Fault> {
    let mut bytes = Vec::new(alloc);
    for value in input.split(" then ") {
        let value = read_value(alloc, value)?;
        if !has_spelling(&value) {
            return Err(Fault::Wrong("a value without a spelling"));
        }
        put_value(alloc, &value, &mut bytes)?;
    }
    if bytes.as_slice() == read_bytes(alloc, wanted)?.as_slice() {
        return Ok(String::from_str(alloc, wanted)?);
    }
    Ok(hex::encode(alloc, bytes.as_slice())?)
}

/// The value that is spelled by the bytes, whatever follows them, and by no strict front of them.
pub fn taken(alloc: Global, input: &str) -> Result<String, Fault> {
    let mut bytes = read_bytes(alloc, input)?;
    let whole = bytes.len();
    let value = taken_from(alloc, bytes.as_slice(), whole)?;
    if value.as_str() == REFUSED {
        return Ok(value);
    }
    if has_taken_front(alloc, bytes.as_slice())? {
        return Err(Fault::Wrong("a front is taken"));
    }
    bytes.extend_from_slice(&[7, 0xff])?;
    if taken_from(alloc, bytes.as_slice(), whole)?.as_str() != value.as_str() {
        return Err(Fault::Wrong("more bytes behind it matter"));
    }
    Ok(value)
}

const REFUSED: &str = "refused";

// Whether a strict front of the bytes is taken.
fn has_taken_front(alloc: Global, bytes: &[u8]) -> Result<bool, Fault> {
    for len in 0..bytes.len() {
        if taken_from(alloc, &bytes[..len], len)?.as_str() != REFUSED {
            return Ok(true);
        }
    }
    Ok(false)
}

// The value that the bytes begin with, whose spelling should have so many of them.
fn taken_from(alloc: Global, bytes: &[u8], wanted: usize) -> Result<String, Fault> {
    match take_value(alloc, bytes) {
        Ok((value, len)) if len == wanted => Ok(write_value(alloc, &value)?),
        Ok(_) => Err(Fault::Wrong("a value of another length")),
        Err(TakeFault::NotCanonical) => Ok(String::from_str(alloc, REFUSED)?),
        Err(TakeFault::OutOfMemory) => Err(Fault::OutOfMemory),
    }
}

/// Whether the claim holds that values ascend or that they are equal.
pub fn ordered(alloc: Global, claim: &str) -> Result<String, Fault> {
    let ascend = claim.contains(" < ");
    let mut values = Vec::new(alloc);
    for value in claim.split(if ascend { " < " } else { " = " }) {
        values.push(read_value(alloc, value)?)?;
    }
    if values.len() < 2 {
        return Err(Fault::Wrong("nothing to compare"));
    }
    let holds = is_ordered(alloc, values.as_slice(), ascend)?;
    Ok(String::from_str(alloc, if holds { "holds" } else { "doesn't hold" })?)
}

// Whether all pairs of values, both ways, are in the order of their places, or equal.
fn is_ordered(alloc: Global, values: &[Value], ascend: bool) -> Result<bool, AllocError> {
    for (place, value) in values.iter().enumerate() {
        if !stands_at(alloc, values, place, value, ascend)? {
            return Ok(false);
        }
    }
    Ok(true)
}

// Whether a value is above those before its place and below those after it, or equal to all.
fn stands_at(
    alloc: Global,
    values: &[Value],
    place: usize,
    value: &Value,
    ascend: bool,
) -> Result<bool, AllocError> {
    for (other_place, other) in values.iter().enumerate() {
        let wanted = if ascend {
            place.cmp(&other_place)
        } else {
            Ordering::Equal
        };
        if compare(alloc, value, other)? != wanted {
            return Ok(false);
        }
    }
    Ok(true)
}

/// The value of a raw value in a kind.
pub fn typed(alloc: Global, input: &str) -> Result<String, Fault> {
    let (kind, raw) = input.split_once(": ").unwrap_or((input, ""));
    let kind = read_kind(alloc, kind)?;
    if !has_scale(&kind) {
        return Err(Fault::Wrong("too many decimals"));
    }
    match type_raw(alloc, &kind, &read_raw(alloc, raw)?) {
        Ok(value) => Ok(write_value(alloc, &value)?),
        Err(TypeFault::WrongType) => Ok(String::from_str(alloc, "wrong type")?),
        Err(TypeFault::OutOfRange) => Ok(String::from_str(alloc, "out of range")?),
        Err(TypeFault::OutOfMemory) => Err(Fault::OutOfMemory),
    }
}

/// The raw value of a value of a kind.
pub fn back(alloc: Global, input: &str) -> Result<String, Fault> {
    let (kind, value) = input.split_once(": ").unwrap_or((input, ""));
    let kind = read_kind(alloc, kind)?;
    let value = read_value(alloc, value)?;
    if !has_scale(&kind) || !is_of_kind(&kind, &value) || !has_spelling(&value) {
        return Err(Fault::Wrong("no value of the kind"));
    }
    let json = raw_of(alloc, &kind, &value)?.to_json(alloc)?;
    Ok(json.to_string(alloc)?)
}
