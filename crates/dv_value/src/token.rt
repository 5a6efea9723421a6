//! Versions, and the tokens of a reader of changes.
ghost use Rattle.std.specs.Prelude.{◌≡◌, ◌↔◌, ℕ, List, ◌<◌, ◌^◌, Some, IfOk, OnSome, IfNone, option_and_then, string_bytes};
ghost use Rattle.serde_json.specs.Data.{string};
ghost use Rattle.serde_json.specs.View.{view};
ghost use Rattle.dv_value.specs.Tokens.{version_of, printed_version_of, token_of, part_way, token_text, IsSpelled};
ghost use Rattle.dv_value.specs.declared.token.Token.{Token};

use crate::amount::read_amount;
use itoa::Buffer;
use serde_json::Value as Json;
use std::alloc::{AllocError, Global};

/// How far a reader of changes has come: it has seen what changed up to version `place`, and its first reading began
/// at version `start`. Once `place` has reached `start` the token is that version alone.
#[derive(Clone, Copy, Debug, PartialEq, Eq)]
pub struct Token {
    pub start: u64,
    pub place: u64,
}

impl Token {
    /// Reads a token: a version, or two of them joined by `+`, of which the second is below the first. None for any
    /// other text.
    #[tactic(auto, unfolding(crate::specs::Tokens::token_of))]
    pub fn parse(text: &str) -> Option<Token>
        ensures { result ≡ token_of text.now }
    {
        match text.split_once('+') {
            Some((start, place)) => Token::between(read_printed(start)?, read_printed(place)?),
            None => {
                let version = read_printed(text)?;
                Some(Token {
                    start: version,
                    place: version,
                })
            }
        }
    }

    // A token of a reading that isn't through yet.
    #[tactic(auto, unfolding(crate::specs::Tokens::part_way))]
    fn between(start: u64, place: u64) -> Option<Token>
        ensures { result ≡ part_way start place }
    {
        if place < start {
            Some(Token { start, place })
        } else {
            None
        }
    }

    /// The token as it is read.
    #[tactic(auto, unfolding(crate::specs::Tokens::token_text))]
    pub fn to_text(self, alloc: Global) -> Result<String, AllocError>
        ensures { IfOk result (λ text. string_bytes text ≡ token_text self) }
    {
        let Token { start, place } = self;
        if place < start {
            Ok(format!(in alloc; "{start}+{place}")?)
        } else {
            Ok(format!(in alloc; "{place}")?)
        }
    }

    /// The token as JSON.
    pub fn to_json(self, alloc: Global) -> Result<Json, AllocError>
        ensures { IfOk result (λ json. view json ≡ string (token_text self)) }
    {
        Ok(Json::String(self.to_text(alloc)?))
    }
}

/// Reads a version as a request names it: an amount without decimals that is not below zero, so `-0` is 0. None for
/// any other text, and for a number above 2^63 - 1, the last version that there can be.
#[tactic(auto, unfolding(crate::specs::Tokens::version_of, crate::specs::Tokens::natural_of))]
pub fn read_version(text: &str) -> Option<u64>
    ensures { result ≡ version_of text.now }
{
    let version = read_amount(text, 0)?;
    u64::try_from(version).ok()
}

/// A token has one spelling, and a text is read as the token whose spelling it is. The call does nothing: what it
/// ensures is the law.
pub fn a_token_has_one_spelling()
    ensures { (text : List ℕ) (token : Token)
        → (token_of text ≡ Some token) ↔ IsSpelled token text }
{}

// The last version that there can be, 2^63 - 1.
const LAST_VERSION: u64 = 9_223_372_036_854_775_807;

// Reads a version of a token, which has no spelling but the one that is printed.
#[tactic(auto, unfolding(crate::specs::Tokens::printed_version_of))]
fn read_printed(text: &str) -> Option<u64>
    ensures { result ≡ printed_version_of text.now }
{
    let Ok(version) = text.parse::<u64>() else {
        return None;
    };
    if version > LAST_VERSION {
        return None;
    }
    let mut buffer = Buffer::new();
    if buffer.format(version) == text {
        Some(version)
    } else {
        None
    }
}
