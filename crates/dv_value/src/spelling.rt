//! The one spelling of a value in bytes.
ghost use Rattle.std.specs.Prelude.{◌≡◌, ℕ, ℤ, ◌<◌, ◌^◌, ◌++◌, ◌∷◌, List, [], Bool, length, take, MatchOption, MatchResult, IfOk, OnOk, OnErr, IsErrOf};
ghost use Rattle.std.specs.Int.{to_be_bytes, cast_unsigned, from_bool, w32, w64, w128};
ghost use Rattle.dv_value.specs.Spelling.{spelling_of, IsValue, HasSpelling, BeginsWith, BeginsWithNumber};
ghost use Rattle.dv_value.specs.Moment.{IsMoment};
ghost use Rattle.dv_value.specs.declared.value.Value.{Value};

use crate::id::Id;
use crate::moment::is_moment;
use crate::text::Text;
use crate::value::Value;
use std::alloc::{AllocError, Global};
use thiserror::Error;

/// Why bytes aren't taken as a value.
#[derive(Clone, Copy, Debug, PartialEq, Eq, Error)]
pub enum TakeFault {
    /// The bytes begin with no value's spelling.
    #[error("the bytes begin with no value")]
    NotCanonical,
    /// There was no memory for the text.
    #[error("out of memory")]
    OutOfMemory,
}

impl From<AllocError> for TakeFault {
    ghost use Rattle.std.specs.Prelude.{◌≡◌};
    ghost use Rattle.dv_value.specs.declared.spelling.TakeFault.TheVariants.{OutOfMemory};

    ghost from_gives = { λ _ fault. fault ≡ OutOfMemory };

    fn from(_error: AllocError) -> TakeFault {
        TakeFault::OutOfMemory
    }
}

const EMPTY: u8 = 0;

const FLAG: u8 = 1;

const WHOLE: u8 = 2;

const CHOICE: u8 = 3;

const AMOUNT: u8 = 4;

const MOMENT: u8 = 5;

const TEXT: u8 = 6;

const REF: u8 = 7;

/// Appends the spelling of a value: a byte for its kind, then what it holds. The room is reserved once.
#[tactic(auto, unfolding(crate::specs::Spelling::tag_of, crate::specs::Spelling::body_of, crate::specs::Spelling::HasSpelling))]
pub fn put_value(_alloc: Global, value: &Value, out: &mut Vec<u8>) -> Result<(), AllocError>
    requires { HasSpelling value.now }
    ensures ok { OnOk result (out.new.items ≡ out.old.items ++ spelling_of value.now) }
    ensures err { OnErr result (out.new.items ≡ out.old.items) }
{
    match value {
        Value::Empty => append(out, EMPTY, &[]),
        Value::Flag(flag) => append(out, FLAG, &[u8::from(*flag)]),
        Value::Whole(number) => append(out, WHOLE, &number.cast_unsigned().to_be_bytes()),
        Value::Choice(number) => append(out, CHOICE, &number.cast_unsigned().to_be_bytes()),
        Value::Amount(amount) => append(out, AMOUNT, &amount.cast_unsigned().to_be_bytes()),
        Value::Moment(seconds) => append(out, MOMENT, &seconds.cast_unsigned().to_be_bytes()),
        Value::Text(text) => append_text(out, text.as_str().as_bytes()),
        Value::Ref(id) => append(out, REF, &id.0.to_be_bytes()),
    }
}

// Appends a tag and what follows it, or nothing.
fn append(out: &mut Vec<u8>, tag: u8, body: &[u8]) -> Result<(), AllocError>
    ensures ok { OnOk result (out.new.items ≡ out.old.items ++ tag ∷ body.now) }
    ensures err { OnErr result (out.new.items ≡ out.old.items) }
{
    out.reserve(1 + body.len())?;
    out.push(tag)?;
    out.extend_from_slice(body)
}

// Appends the tag of a text, its length in bytes and its bytes, or nothing.
fn append_text(out: &mut Vec<u8>, text: &[u8]) -> Result<(), AllocError>
    requires { length text.now < 2 ^ 32 }
    ensures ok { OnOk result (out.new.items
        ≡ out.old.items ++ 6 ∷ (to_be_bytes w32 (length text.now) ++ text.now)) }
    ensures err { OnErr result (out.new.items ≡ out.old.items) }
{
    out.reserve(5 + text.len())?;
    out.push(TEXT)?;
    out.extend_from_slice(&(text.len() as u32).to_be_bytes())?;
    out.extend_from_slice(text)
}

/// Takes the value that the bytes begin with, and says how many bytes its spelling has. What follows it doesn't
/// matter.
pub fn take_value(alloc: Global, bytes: &[u8]) -> Result<(Value, usize), TakeFault>
    ensures taken { IfOk result (λ taken. BeginsWith bytes.now taken.0 taken.1) }
    ensures refused { IsErrOf result TakeFault.NotCanonical
        → (value : Value) (len : ℕ) → BeginsWith bytes.now value len → ⊥ }
    ensures again { (value : Value) (rest : List ℕ) → IsValue value → HasSpelling value
        → bytes.now ≡ spelling_of value ++ rest
        → MatchResult result (λ taken. taken ≡ (value, length (spelling_of value)))
        (λ fault. fault ≡ TakeFault.OutOfMemory) }
{
    match bytes.split_first() {
        Some((tag, body)) => take_body(alloc, *tag, body),
        None => Err(TakeFault::NotCanonical),
    }
}

/// No spelling begins another one, so two values never share one. The call does nothing: what it ensures is the law.
pub fn no_spelling_begins_another()
    ensures { (a : Value) (b : Value) (rest : List ℕ)
        → IsValue a → HasSpelling a → IsValue b → HasSpelling b
        → spelling_of b ≡ spelling_of a ++ rest → (a ≡ b) × (rest ≡ []) }
{}

// Takes the value with this tag.
#[tactic(auto, unfolding(crate::specs::Spelling::tag_of, crate::specs::Spelling::body_of, crate::specs::Spelling::HasSpelling, crate::specs::Spelling::IsValue))]
fn take_body(alloc: Global, tag: u8, body: &[u8]) -> Result<(Value, usize), TakeFault>
    ensures taken { IfOk result (λ taken. BeginsWith (tag ∷ body.now) taken.0 taken.1) }
    ensures refused { IsErrOf result TakeFault.NotCanonical
        → (value : Value) (len : ℕ) → BeginsWith (tag ∷ body.now) value len → ⊥ }
{
    match tag {
        EMPTY => Ok((Value::Empty, 1)),
        FLAG => match take_flag(body) {
            Some(flag) => Ok((Value::Flag(flag), 2)),
            None => Err(TakeFault::NotCanonical),
        },
        WHOLE => match take_four(body) {
            Some(bits) => Ok((Value::Whole(bits.cast_signed()), 5)),
            None => Err(TakeFault::NotCanonical),
        },
        CHOICE => match take_four(body) {
            Some(bits) => Ok((Value::Choice(bits.cast_signed()), 5)),
            None => Err(TakeFault::NotCanonical),
        },
        AMOUNT => match take_eight(body) {
            Some(bits) => Ok((Value::Amount(bits.cast_signed()), 9)),
            None => Err(TakeFault::NotCanonical),
        },
        MOMENT => match take_moment(body) {
            Some(seconds) => Ok((Value::Moment(seconds), 9)),
            None => Err(TakeFault::NotCanonical),
        },
        TEXT => take_text(alloc, body),
        REF => match take_sixteen(body) {
            Some(bits) => Ok((Value::Ref(Id(bits)), 17)),
            None => Err(TakeFault::NotCanonical),
        },
        _ => Err(TakeFault::NotCanonical),
    }
}

// Takes the text whose length and bytes the bytes begin with.
fn take_text(alloc: Global, body: &[u8]) -> Result<(Value, usize), TakeFault>
    ensures taken { IfOk result (λ taken. BeginsWith (TEXT ∷ body.now) taken.0 taken.1) }
    ensures refused { IsErrOf result TakeFault.NotCanonical
        → (value : Value) (len : ℕ) → BeginsWith (TEXT ∷ body.now) value len → ⊥ }
{
    let len = match take_four(body) {
        Some(len) => len as usize,
        None => return Err(TakeFault::NotCanonical),
    };
    if body.len() - 4 < len {
        return Err(TakeFault::NotCanonical);
    }
    match str::from_utf8(&body[4..4 + len]) {
        Ok(text) => Ok((Value::Text(Text::from_str(alloc, text)?), 5 + len)),
        Err(_) => Err(TakeFault::NotCanonical),
    }
}

// The truth value of the first byte.
fn take_flag(body: &[u8]) -> Option<bool>
    ensures { MatchOption result ((flag : Bool) → take 1 body.now ≡ from_bool flag ∷ [] → ⊥)
        (λ flag. take 1 body.now ≡ from_bool flag ∷ []) }
{
    match body.first()? {
        0 => Some(false),
        1 => Some(true),
        _ => None,
    }
}

// Takes the moment whose bytes the bytes begin with.
fn take_moment(body: &[u8]) -> Option<i64>
    ensures { MatchOption result
        ((seconds : ℤ) → IsMoment seconds
        → BeginsWithNumber w64 body.now (cast_unsigned w64 seconds) → ⊥)
        (λ seconds. IsMoment seconds × BeginsWithNumber w64 body.now (cast_unsigned w64 seconds)) }
{
    match take_eight(body) {
        Some(bits) if is_moment(bits.cast_signed()) => Some(bits.cast_signed()),
        _ => None,
    }
}

// The number of the first four bytes.
fn take_four(body: &[u8]) -> Option<u32>
    ensures { MatchOption result (length body.now < 4) (BeginsWithNumber w32 body.now) }
{
    match body.first_chunk::<4>() {
        Some(bytes) => Some(u32::from_be_bytes(*bytes)),
        None => None,
    }
}

// The number of the first eight bytes.
fn take_eight(body: &[u8]) -> Option<u64>
    ensures { MatchOption result (length body.now < 8) (BeginsWithNumber w64 body.now) }
{
    match body.first_chunk::<8>() {
        Some(bytes) => Some(u64::from_be_bytes(*bytes)),
        None => None,
    }
}

// The number of the first 16 bytes.
fn take_sixteen(body: &[u8]) -> Option<u128>
    ensures { MatchOption result (length body.now < 16) (BeginsWithNumber w128 body.now) }
{
    match body.first_chunk::<16>() {
        Some(bytes) => Some(u128::from_be_bytes(*bytes)),
        None => None,
    }
}
