//! Amounts: decimal numbers, kept as the integer that their last decimal counts.
ghost use Rattle.std.specs.Prelude.{◌≡◌, ◌^◌, ◌<◌, ◌≤◌, ◌++◌, ◌∷◌, [], ◌*◌, ◌+◌, IfOk, OnOk, MatchOption, if◌then◌else◌, None, Some, encode_utf8_all, string_bytes};
ghost use Rattle.std.specs.Option.{SomeIff};
ghost use Rattle.std.specs.List.{list_all};
ghost use Rattle.std.specs.Fmt.{decimal};
ghost use Rattle.std.specs.Char.{is_ascii_digit};
ghost use Rattle.dv_value.specs.Amount.{is_whole, is_decimals, whole_of, decimals_of, magnitude_of, amount_of, decimals_text, amount_text};
ghost use Rattle.dv_value.specs.Digits.{places};

use crate::text::Text;
use std::alloc::{AllocError, Global};

/// Reads the text of an amount with at most `scale` decimals, in units of the last of them: with two, `1.5` is
/// 150. None where the text has another form, or says a number of more than 64 bits.
pub fn read_amount(text: &str, scale: u8) -> Option<i64>
    requires { scale ≤ 4 }
    ensures { result ≡ amount_of scale text.now }
{
    match text.strip_prefix('-') {
        Some(rest) => 0_i64.checked_sub_unsigned(read_magnitude(rest, scale)?),
        None => 0_i64.checked_add_unsigned(read_magnitude(text, scale)?),
    }
}

// Reads the text of an amount with no sign. None also past 64 bits.
fn read_magnitude(text: &str, scale: u8) -> Option<u64>
    requires { scale ≤ 4 }
    ensures { MatchOption (magnitude_of scale text.now)
        (result ≡ None) (λ n. SomeIff result (n < 2 ^ 64) n) }
{
    match text.split_once('.') {
        Some((whole, decimals)) => {
            joined(read_whole(whole)?, read_decimals(decimals, scale)?, scale)
        }
        None => joined(read_whole(text)?, 0, scale),
    }
}

// The number of last decimals of a whole and decimals. None past 64 bits.
fn joined(whole: u64, decimals: u64, scale: u8) -> Option<u64>
    requires { scale ≤ 4 }
    ensures { SomeIff result (whole * 10 ^ scale + decimals < 2 ^ 64)
        (whole * 10 ^ scale + decimals) }
{
    whole.checked_mul(unit(scale))?.checked_add(decimals)
}

// Reads whole digits. None also past 64 bits.
fn read_whole(text: &str) -> Option<u64>
    ensures { MatchOption (whole_of text.now)
        (result ≡ None) (λ n. SomeIff result (n < 2 ^ 64) n) }
{
    if !is_whole(text.as_bytes()) {
        return None;
    }
    text.parse().ok()
}

// Reads decimals, of which the missing ones are zeros.
fn read_decimals(text: &str, scale: u8) -> Option<u64>
    requires { scale ≤ 4 }
    ensures { result ≡ decimals_of scale text.now }
{
    if !is_decimals(text.as_bytes(), scale) {
        return None;
    }
    match text.parse::<u64>() {
        Ok(digits) => Some(digits * unit(scale - text.len() as u8)),
        Err(_) => None,
    }
}

// Whether the text has whole digits and no needless zero in front.
#[tactic(auto, unfolding(crate::specs::Amount::is_whole))]
fn is_whole(text: &[u8]) -> bool
    ensures { result ≡ is_whole text.now }
{
    if text.is_empty() {
        return false;
    }
    if text.len() > 1 && text[0] == b'0' {
        return false;
    }
    are_digits(text)
}

// Whether the text has a digit or more, and no more than `scale`.
#[tactic(auto, unfolding(crate::specs::Amount::is_decimals))]
fn is_decimals(text: &[u8], scale: u8) -> bool
    ensures { result ≡ is_decimals scale text.now }
{
    if text.is_empty() {
        return false;
    }
    if text.len() > usize::from(scale) {
        return false;
    }
    are_digits(text)
}

// Whether the text has digits alone.
fn are_digits(text: &[u8]) -> bool
    ensures { result ≡ list_all is_ascii_digit text.now }
{
    text.iter().all(|byte| byte.is_ascii_digit())
}

// How many last decimals a whole has.
fn unit(scale: u8) -> u64
    requires { scale ≤ 4 }
    ensures value { result ≡ 10 ^ scale }
    ensures some { 0 < result }
    ensures small { result ≤ 10000 }
{
    10_u64.pow(u32::from(scale))
}

/// The text of an amount with exactly `scale` decimals, no point where there are none, and no sign before zero.
pub fn print_amount(alloc: Global, amount: i64, scale: u8) -> Result<Text, AllocError>
    requires { scale ≤ 4 }
    ensures text { IfOk result (λ text. text ≡ amount_text scale amount) }
    ensures read_again { IfOk result (λ text.
        amount_of scale (encode_utf8_all text) ≡ Some amount) }
{
    let magnitude = amount.unsigned_abs();
    let mut text = signed(alloc, amount < 0, magnitude / unit(scale))?;
    push_decimals(&mut text, magnitude, scale)?;
    Ok(Text::from_string(text))
}

// The text of a whole number with its sign.
fn signed(alloc: Global, is_negative: bool, whole: u64) -> Result<String, AllocError>
    ensures { IfOk result (λ text.
        string_bytes text ≡ (if is_negative then 45 ∷ decimal whole else decimal whole)) }
{
    if is_negative {
        Ok(format!(in alloc; "-{whole}")?)
    } else {
        Ok(format!(in alloc; "{whole}")?)
    }
}

// Appends the point and the decimals, where there are to be any.
#[tactic(auto, unfolding(crate::specs::Amount::decimals_text))]
fn push_decimals(text: &mut String, number: u64, scale: u8) -> Result<(), AllocError>
    requires { scale ≤ 4 }
    ensures { OnOk result
        (string_bytes text.new ≡ string_bytes text.old ++ decimals_text scale number) }
{
    if scale == 0 {
        return Ok(());
    }
    text.push('.')?;
    push_places(text, number, scale)
}

// Appends the last `count` decimal digits of a number.
fn push_places(text: &mut String, number: u64, count: u8) -> Result<(), AllocError>
    requires { count ≤ 4 }
    ensures { OnOk result (string_bytes text.new ≡ string_bytes text.old ++ places count number) }
{
    for place in (0..count).rev() {
        let digit = number / unit(place) % 10;
        text.push(char::from(b'0' + digit as u8))?;
    }
    Ok(())
}
