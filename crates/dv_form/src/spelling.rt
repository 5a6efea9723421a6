//! How a value without parts is spelled, and whether a JSON value is spelled so.

ghost use Rattle.std.specs.Prelude.{◌≡◌, int_le, ◌&&◌, ◌==◌, nat_le, length, map};
ghost use Rattle.std.specs.List.{list_any, list_all};
ghost use Rattle.std.specs.Ordering.{int_eq};
ghost use Rattle.serde_json.specs.View.{view};
ghost use Rattle.dv_form.specs.Spellings as say;
ghost use Rattle.dv_form.specs.Schemas.{spelling_of};
ghost use Rattle.std.specs.Option.{is_some};
ghost use Rattle.dv_value.specs.Raws.{raw_of};

use crate::members::{id_in, integer_in};
use dv_value::{Token, read_version};
use serde_json::Value as Json;

/// The most bytes that a name has after its first.
const LONGEST_REST: usize = 49;

/// How a value without parts is spelled.
#[derive(Clone, Copy)]
pub enum Spelling {
    /// An id in any of the forms of a UUID.
    Id,
    /// An id other than the nil one.
    RealId,
    /// A letter a to z, and then at most 49 letters a to z, digits or `_`.
    Name,
    /// Such a name, or `*`.
    NameOrStar,
    /// Any text.
    Text,
    /// `true` or `false`.
    Flag,
    /// An integer of 64 bits.
    Integer,
    /// An integer from the first to the second, both included.
    IntegerFrom(i64, i64),
    /// One of these integers.
    IntegerAmong(&'static [i64]),
    /// One of these words, letter by letter.
    WordAmong(&'static [&'static str]),
    /// `null`, a truth value, an integer of 64 bits or a text.
    Raw,
    /// A version: an amount without decimals that is not below zero.
    Version,
    /// A token: a version, or two of them joined by `+`, the second below the first.
    Token,
}

/// Whether a text is a name: a letter a to z, and then at most 49 letters a to z, digits or `_`.
#[tactic(auto, unfolding(crate::specs::Spellings::is_name))]
pub fn is_name(text: &str) -> bool
    ensures { result ≡ say.is_name text.now }
{
    match text.as_bytes().split_first() {
        Some((first, rest)) => first.is_ascii_lowercase() && is_rest_of_name(rest),
        None => false,
    }
}

// Whether at most 49 bytes are each one that a name may have after its first.
fn is_rest_of_name(rest: &[u8]) -> bool
    ensures { result ≡ (nat_le (length rest.now) say.longest_rest
        && list_all say.is_name_byte rest.now) }
{
    rest.len() <= LONGEST_REST && has_name_bytes(rest)
}

// Whether each byte is one that a name may have after its first.
fn has_name_bytes(bytes: &[u8]) -> bool
    ensures { result ≡ list_all say.is_name_byte bytes.now }
{
    bytes.iter().all(|byte| is_name_byte(*byte))
}

// Whether a name may have this byte after its first.
#[tactic(auto, unfolding(crate::specs::Spellings::is_name_byte))]
fn is_name_byte(byte: u8) -> bool
    ensures { result ≡ say.is_name_byte byte }
{
    byte.is_ascii_lowercase() || byte.is_ascii_digit() || byte == b'_'
}

// Whether the word is one of these.
#[tactic(auto, unfolding(crate::specs::Spellings::is_among))]
fn is_among(words: &[&str], word: &str) -> bool
    ensures { result ≡ say.is_among (map (λ w. w.now) words.now) word.now }
{
    words.contains(&word)
}

impl Spelling {
    /// Whether a value is spelled so.
    #[tactic(auto, unfolding(crate::specs::Spellings::is_spelled))]
    pub(crate) fn admits(&self, json: &Json) -> bool
        ensures { result ≡ say.is_spelled (spelling_of self.now) (view json.now) }
    {
        match self {
            Spelling::Id => id_in(json).is_some(),
            Spelling::RealId => match id_in(json) {
                Some(id) => id.0 != 0,
                None => false,
            },
            Spelling::Name => match json.as_str() {
                Some(text) => is_name(text),
                None => false,
            },
            Spelling::NameOrStar => match json.as_str() {
                Some(text) => is_name(text) || text == "*",
                None => false,
            },
            Spelling::Text => json.is_string(),
            Spelling::Flag => json.is_boolean(),
            Spelling::Integer => integer_in(json).is_some(),
            Spelling::IntegerFrom(low, high) => match integer_in(json) {
                Some(n) => is_between(*low, *high, n),
                None => false,
            },
            Spelling::IntegerAmong(among) => match integer_in(json) {
                Some(n) => among.contains(&n),
                None => false,
            },
            Spelling::WordAmong(words) => match json.as_str() {
                Some(text) => is_among(words, text),
                None => false,
            },
            Spelling::Raw => is_raw(json),
            Spelling::Version => match json.as_str() {
                Some(text) => read_version(text).is_some(),
                None => false,
            },
            Spelling::Token => match json.as_str() {
                Some(text) => Token::parse(text).is_some(),
                None => false,
            },
        }
    }
}

// Whether an integer is from one to another, both included.
#[tactic(auto, unfolding(crate::specs::Spellings::is_between))]
fn is_between(low: i64, high: i64, n: i64) -> bool
    ensures { result ≡ say.is_between low high n }
{
    low <= n && n <= high
}

/// Whether a value is raw.
#[tactic(auto, unfolding(dv_value::specs::Raws::raw_of))]
pub(crate) fn is_raw(json: &Json) -> bool
    ensures { result ≡ is_some (raw_of (view json.now)) }
{
    match json {
        Json::Null | Json::Bool(_) | Json::String(_) => true,
        Json::Number(number) => number.as_i64().is_some(),
        Json::Array(_) | Json::Object(_) => false,
    }
}
