//! The bytes that a text stands for: `#7` for the id of number 7, `\x0d` for the byte of that code, and repetitions.
use crate::fault::Fault;
use crate::repetition::repeated;
use std::alloc::{AllocError, Global};

/// The bytes that a text stands for. A `#` without a digit behind it stands for itself.
pub fn bytes_of(alloc: Global, text: &str) -> Result<Vec<u8>, Fault> {
    let text = repeated(alloc, text)?;
    let mut bytes = Vec::new(alloc);
    let mut parts = text.as_str().split('#');
    push_codes(parts.next().unwrap_or(""), &mut bytes)?;
    for part in parts {
        push_id(alloc, part, &mut bytes)?;
    }
    Ok(bytes)
}

// Appends the id of the number at the front of a text, and what follows it.
fn push_id(alloc: Global, text: &str, bytes: &mut Vec<u8>) -> Result<(), Fault> {
    let (digits, rest) = digits_of(text);
    if digits.is_empty() {
        bytes.push(b'#')?;
    } else {
        push_uuid(alloc, digits.parse::<u128>()?, bytes)?;
    }
    push_codes(rest, bytes)
}

// Appends the text of an id: hexadecimal digits, with hyphens before four of them.
fn push_uuid(alloc: Global, number: u128, bytes: &mut Vec<u8>) -> Result<(), AllocError> {
    let digits = format!(in alloc; "{number:032x}")?;
    for (place, digit) in digits.as_str().bytes().enumerate() {
        if matches!(place, 8 | 12 | 16 | 20) {
            bytes.push(b'-')?;
        }
        bytes.push(digit)?;
    }
    Ok(())
}

// The decimal digits at the front of a text, and what follows them.
fn digits_of(text: &str) -> (&str, &str) {
    let mut length = 0usize;
    for byte in text.bytes() {
        if !byte.is_ascii_digit() {
            break;
        }
        length = length.saturating_add(1);
    }
    text.split_at_checked(length).unwrap_or((text, ""))
}

// Appends the bytes of a text, with the byte of the code in place of each `\xNN`.
fn push_codes(text: &str, bytes: &mut Vec<u8>) -> Result<(), Fault> {
    let mut parts = text.split("\\x");
    bytes.extend_from_slice(parts.next().unwrap_or("").as_bytes())?;
    for part in parts {
        let Some((code, rest)) = part.split_at_checked(2) else {
            return Err(Fault::Wrong("no two digits behind \\x"));
        };
        bytes.push(u8::from_str_radix(code, 16)?)?;
        bytes.extend_from_slice(rest.as_bytes())?;
    }
    Ok(())
}

/// The texts one behind another.
pub fn joined(alloc: Global, texts: &[&str]) -> Result<String, AllocError> {
    let mut whole = String::new(alloc);
    for text in texts {
        whole.push_str(text)?;
    }
    Ok(whole)
}
