//! Cases of HTTP messages: what is told of bytes, which must be the same wherever they are cut.
use case_notation::{Fault, repeated};
use dv_http::{Heard, HttpMessage, next_message};
use std::alloc::{AllocError, Global};

// A longer input is not cut at each place, but at each so many places.
const LONG_INPUT: usize = 20_000;

const LONG_STEP: usize = 4_099;

// A longer body is told by its length.
const LONG_BODY: usize = 20;

/// What is told of the bytes of an input. Where some cut tells something else, that is said.
pub fn heard(alloc: Global, input: &str) -> Result<String, Fault> {
    let mut bytes = Vec::new(alloc);
    unescape(repeated(alloc, input)?.as_str(), &mut bytes)?;
    if differs(alloc, bytes.as_slice())? {
        return Err(Fault::Wrong("something else where the input is cut"));
    }
    let told = told_cut(alloc, bytes.as_slice(), bytes.len())?;
    Ok(escaped(alloc, told.as_slice())?)
}

// Appends the bytes of a text in which `\r`, `\n`, `\t` and `\\` stand for those bytes.
fn unescape(text: &str, bytes: &mut Vec<u8>) -> Result<(), Fault> {
    let mut is_escaped = false;
    for byte in text.bytes() {
        if !is_escaped && byte == b'\\' {
            is_escaped = true;
            continue;
        }
        bytes.push(if is_escaped { unescaped(byte) } else { byte })?;
        is_escaped = false;
    }
    Ok(())
}

fn unescaped(byte: u8) -> u8 {
    match byte {
        b'r' => b'\r',
        b'n' => b'\n',
        b't' => b'\t',
        other => other,
    }
}

// The text of what was told, with `\r` and `\n` in place of those bytes.
fn escaped(alloc: Global, told: &[u8]) -> Result<String, AllocError> {
    String::from_utf8_lossy(alloc, told)?
        .replace(alloc, "\r", "\\r")?
        .replace(alloc, "\n", "\\n")
}

/// Whether some cut of the bytes tells something else than they tell at once.
pub fn differs(alloc: Global, bytes: &[u8]) -> Result<bool, AllocError> {
    let whole = told_cut(alloc, bytes, bytes.len())?;
    let step = if LONG_INPUT < bytes.len() {
        LONG_STEP
    } else {
        1
    };
    for cut in (0..bytes.len()).step_by(step) {
        if told_cut(alloc, bytes, cut)?.as_slice() != whole.as_slice() {
            return Ok(true);
        }
    }
    Ok(false)
}

// What is told of the bytes when those before the cut come first.
fn told_cut(alloc: Global, bytes: &[u8], cut: usize) -> Result<Vec<u8>, AllocError> {
    let mut told = Vec::new(alloc);
    if let Some(from) = hear(alloc, bytes.get(..cut).unwrap_or(&[]), 0, &mut told)?
        && let Some(from) = hear(alloc, bytes, from, &mut told)?
    {
        told.extend_from_slice(if from < bytes.len() { b"more" } else { b"end" })?;
    }
    Ok(told)
}

// Tells the messages from a place on, and where they end; nothing is told of a rest that more bytes may follow.
fn hear(
    alloc: Global,
    bytes: &[u8],
    from: usize,
    told: &mut Vec<u8>,
) -> Result<Option<usize>, AllocError> {
    let mut from = from;
    for _ in 0..bytes.len() {
        match next_message(alloc, bytes.get(from..).unwrap_or(&[]))? {
            Heard::NotYet => break,
            Heard::Bad => {
                told.extend_from_slice(b"bad")?;
                return Ok(None);
            }
            Heard::Whole { message, used } => {
                tell(alloc, &message, told)?;
                if message.closes {
                    told.extend_from_slice(b"end")?;
                    return Ok(None);
                }
                from = from.saturating_add(used);
            }
        }
    }
    Ok(Some(from))
}

fn tell(alloc: Global, message: &HttpMessage, told: &mut Vec<u8>) -> Result<(), AllocError> {
    tell_word(message.method.as_slice(), told)?;
    tell_word(message.target.as_slice(), told)?;
    tell_word(caller_of(message), told)?;
    tell_body(alloc, message.body.as_slice(), told)?;
    told.extend_from_slice(ending(message.closes))
}

fn tell_word(word: &[u8], told: &mut Vec<u8>) -> Result<(), AllocError> {
    told.extend_from_slice(word)?;
    told.extend_from_slice(b" ")
}

fn caller_of(message: &HttpMessage) -> &[u8] {
    match &message.caller {
        Some(caller) => caller.as_slice(),
        None => b"-",
    }
}

// A long body is told by its length.
fn tell_body(alloc: Global, body: &[u8], told: &mut Vec<u8>) -> Result<(), AllocError> {
    if LONG_BODY < body.len() {
        return told.extend_from_slice(body.len().to_string(alloc)?.as_bytes());
    }
    told.extend_from_slice(body)
}

fn ending(closes: bool) -> &'static [u8] {
    if closes { b" close; " } else { b"; " }
}
