//! Cases of moments, amounts, versions and tokens: what their texts are read as, and how they are printed.
use crate::limits::{FIRST_SECOND, LAST_SECOND, MOST_DECIMALS};
use crate::notation::{read_text, write_text};
use case_notation::Fault;
use dv_value::{Text, Token, print_amount, print_moment, read_amount, read_moment, read_version};
use std::alloc::{AllocError, Global};

fn refused(alloc: Global) -> Result<String, AllocError> {
    String::from_str(alloc, "refused")
}

// The number that was read, or that it was refused.
fn number_or_refused(alloc: Global, read: Option<i64>) -> Result<String, AllocError> {
    match read {
        Some(number) => number.to_string(alloc),
        None => refused(alloc),
    }
}

/// The moment that a text says.
pub fn moment(alloc: Global, input: &str) -> Result<String, Fault> {
    let text = read_text(alloc, input)?;
    Ok(number_or_refused(alloc, read_moment(text.as_str()))?)
}

/// The version that a text says.
pub fn version(alloc: Global, input: &str) -> Result<String, Fault> {
    let text = read_text(alloc, input)?;
    match read_version(text.as_str()) {
        Some(version) => Ok(version.to_string(alloc)?),
        None => Ok(refused(alloc)?),
    }
}

/// The amount that a text with at most so many decimals says.
pub fn amount(alloc: Global, input: &str) -> Result<String, Fault> {
    let (scale, text) = input.split_once(' ').unwrap_or((input, ""));
    let scale = scale_of(scale)?;
    let text = read_text(alloc, text)?;
    if scale > MOST_DECIMALS {
        return Err(Fault::Wrong("more than four decimals"));
    }
    Ok(number_or_refused(alloc, read_amount(text.as_str(), scale))?)
}

fn scale_of(text: &str) -> Result<u8, Fault> {
    Ok(text.parse::<u8>()?)
}

/// The text of the token that a text says.
pub fn token(alloc: Global, input: &str) -> Result<String, Fault> {
    match Token::parse(read_text(alloc, input)?.as_str()) {
        Some(token) => {
            let text = Text::from_string(token.to_text(alloc)?);
            Ok(write_text(alloc, &text)?)
        }
        None => Ok(refused(alloc)?),
    }
}

/// The text of a moment, or of an amount with so many decimals.
pub fn printed(alloc: Global, input: &str) -> Result<String, Fault> {
    if let Some(seconds) = input.strip_prefix("moment ") {
        return printed_moment(alloc, seconds.parse::<i64>()?);
    }
    if let Some(amount) = input.strip_prefix("amount ") {
        let (scale, amount) = amount.split_once(' ').unwrap_or((amount, ""));
        return printed_amount(alloc, scale_of(scale)?, amount.parse::<i64>()?);
    }
    Err(Fault::Wrong("neither a moment nor an amount"))
}

fn printed_moment(alloc: Global, seconds: i64) -> Result<String, Fault> {
    if seconds < FIRST_SECOND || LAST_SECOND < seconds {
        return Err(Fault::Wrong("out of a clock's range"));
    }
    Ok(write_text(alloc, &print_moment(alloc, seconds)?)?)
}

fn printed_amount(alloc: Global, scale: u8, amount: i64) -> Result<String, Fault> {
    if scale > MOST_DECIMALS {
        return Err(Fault::Wrong("more than four decimals"));
    }
    Ok(write_text(alloc, &print_amount(alloc, amount, scale)?)?)
}
