//! Raw values typed by a kind, and values as raw ones.
ghost use Rattle.std.specs.Prelude.{◌≡◌, ◌≤◌, IfOk, IsErrOf, Ok, Err, Some, None, ◌&&◌, if◌then◌else◌};
ghost use Rattle.std.specs.List.{list_any};
ghost use Rattle.std.specs.Ordering.{int_eq};
ghost use Rattle.dv_value.specs.Typing.{HasScale, in_limits, is_32, typed_truth, typed_number, typed_text, typed, IsOfKind, IsWithin, IsRawOf, scale_of};
ghost use Rattle.dv_value.specs.Spelling.{HasSpelling};

use crate::amount::{print_amount, read_amount};
use crate::id::Id;
use crate::kind::Kind;
use crate::moment::{print_moment, read_moment};
use crate::raw::Raw;
use crate::text::Text;
use crate::value::Value;
use std::alloc::{AllocError, Global};
use thiserror::Error;

/// Why a raw value isn't one of a kind.
#[derive(Clone, Copy, Debug, PartialEq, Eq, Error)]
pub enum TypeFault {
    /// The raw value, or the spelling of its text, isn't the kind's.
    #[error("the value is of another kind")]
    WrongType,
    /// The value passes the kind's limits.
    #[error("the value is out of the kind's limits")]
    OutOfRange,
    /// There was no memory for the text.
    #[error("out of memory")]
    OutOfMemory,
}

impl From<AllocError> for TypeFault {
    ghost use Rattle.std.specs.Prelude.{◌≡◌};
    ghost use Rattle.dv_value.specs.declared.typing.TypeFault.TheVariants.{OutOfMemory};

    ghost from_gives = { λ _ fault. fault ≡ OutOfMemory };

    fn from(_error: AllocError) -> TypeFault {
        TypeFault::OutOfMemory
    }
}

/// The value of a raw value in a kind. Null is Empty in each kind; the limits are the kind's own, and an integer
/// of more than 32 bits passes them all. What is typed is Empty or of the kind, and within the limits.
#[tactic(auto, unfolding(crate::specs::Typing::typed))]
pub fn type_raw(alloc: Global, kind: &Kind, raw: &Raw) -> Result<Value, TypeFault>
    requires { HasScale kind.now }
    ensures ok { IfOk result (λ value. typed kind.now raw.now ≡ Ok value) }
    ensures of_kind { IfOk result (λ value. IsOfKind kind.now value) }
    ensures within { IfOk result (λ value. IsWithin kind.now value) }
    ensures wrong_type { IsErrOf result TypeFault.WrongType
        → typed kind.now raw.now ≡ Err TypeFault.WrongType }
    ensures out_of_range { IsErrOf result TypeFault.OutOfRange
        → typed kind.now raw.now ≡ Err TypeFault.OutOfRange }
{
    match raw {
        Raw::Null => Ok(Value::Empty),
        Raw::Bool(flag) => type_truth(kind, *flag),
        Raw::Int(number) => type_number(kind, *number),
        Raw::Str(text) => type_text(alloc, kind, text),
    }
}

// The value of a truth value.
#[tactic(auto, unfolding(crate::specs::Typing::typed_truth))]
fn type_truth(kind: &Kind, flag: bool) -> Result<Value, TypeFault>
    ensures { result ≡ typed_truth kind.now flag }
{
    match kind {
        Kind::Flag => Ok(Value::Flag(flag)),
        Kind::Whole { .. } => Err(TypeFault::WrongType),
        Kind::Choice { .. } => Err(TypeFault::WrongType),
        Kind::Amount { .. } => Err(TypeFault::WrongType),
        Kind::Moment => Err(TypeFault::WrongType),
        Kind::Text { .. } => Err(TypeFault::WrongType),
        Kind::Ref => Err(TypeFault::WrongType),
    }
}

// The value of an integer.
#[tactic(auto, unfolding(crate::specs::Typing::typed_number))]
fn type_number(kind: &Kind, number: i64) -> Result<Value, TypeFault>
    ensures { result ≡ typed_number kind.now number }
{
    match kind {
        Kind::Whole { min, max } => match narrow(number) {
            Some(n) if *min <= n && n <= *max => Ok(Value::Whole(n)),
            _ => Err(TypeFault::OutOfRange),
        },
        Kind::Choice { options } => type_choice(options.as_slice(), number),
        Kind::Flag => Err(TypeFault::WrongType),
        Kind::Amount { .. } => Err(TypeFault::WrongType),
        Kind::Moment => Err(TypeFault::WrongType),
        Kind::Text { .. } => Err(TypeFault::WrongType),
        Kind::Ref => Err(TypeFault::WrongType),
    }
}

// The number, where it is one of the options.
fn type_choice(options: &[i32], number: i64) -> Result<Value, TypeFault>
    ensures { result ≡ in_limits
        (is_32 number && list_any (λ option. int_eq option number) options.now)
        (Value.Choice number) }
{
    let option = match narrow(number) {
        Some(option) => option,
        None => return Err(TypeFault::OutOfRange),
    };
    if options.contains(&option) {
        Ok(Value::Choice(option))
    } else {
        Err(TypeFault::OutOfRange)
    }
}

// The number, where it is one of 32 bits.
#[tactic(auto, unfolding(crate::specs::Typing::is_32))]
fn narrow(number: i64) -> Option<i32>
    ensures { result ≡ (if is_32 number then Some number else None) }
{
    if i64::from(i32::MIN) <= number && number <= i64::from(i32::MAX) {
        Some(number as i32)
    } else {
        None
    }
}

// The value of a text.
#[tactic(auto, unfolding(crate::specs::Typing::typed_text, crate::specs::Typing::said, crate::specs::Typing::HasScale))]
fn type_text(alloc: Global, kind: &Kind, text: &Text) -> Result<Value, TypeFault>
    requires { HasScale kind.now }
    ensures ok { IfOk result (λ value. typed_text kind.now text.now ≡ Ok value) }
    ensures wrong_type { IsErrOf result TypeFault.WrongType
        → typed_text kind.now text.now ≡ Err TypeFault.WrongType }
    ensures out_of_range { IsErrOf result TypeFault.OutOfRange
        → typed_text kind.now text.now ≡ Err TypeFault.OutOfRange }
{
    match kind {
        Kind::Amount { scale } => match read_amount(text.as_str(), *scale) {
            Some(amount) => Ok(Value::Amount(amount)),
            None => Err(TypeFault::WrongType),
        },
        Kind::Moment => match read_moment(text.as_str()) {
            Some(seconds) => Ok(Value::Moment(seconds)),
            None => Err(TypeFault::WrongType),
        },
        Kind::Text { max } => {
            if text.count() > *max as usize {
                return Err(TypeFault::OutOfRange);
            }
            Ok(Value::Text(text.copy(alloc)?))
        }
        Kind::Ref => match Id::parse(text.as_str()) {
            Some(id) => Ok(Value::Ref(id)),
            None => Err(TypeFault::WrongType),
        },
        Kind::Flag => Err(TypeFault::WrongType),
        Kind::Whole { .. } => Err(TypeFault::WrongType),
        Kind::Choice { .. } => Err(TypeFault::WrongType),
    }
}

/// The raw value of a value of a kind: an amount with all its decimals, an id in lower case with hyphens. A value
/// within the kind's limits is typed again from it.
#[tactic(auto, unfolding(crate::specs::Typing::IsRawOf, crate::specs::Spelling::HasSpelling))]
pub fn raw_of(alloc: Global, kind: &Kind, value: &Value) -> Result<Raw, AllocError>
    requires scale { HasScale kind.now }
    requires of_kind { IsOfKind kind.now value.now }
    requires spelled { HasSpelling value.now }
    ensures spelling { IfOk result (λ raw. IsRawOf kind.now value.now raw) }
    ensures back { IsWithin kind.now value.now
        → IfOk result (λ raw. typed kind.now raw ≡ Ok value.now) }
{
    match value {
        Value::Empty => Ok(Raw::Null),
        Value::Flag(flag) => Ok(Raw::Bool(*flag)),
        Value::Whole(number) => Ok(Raw::Int(i64::from(*number))),
        Value::Choice(number) => Ok(Raw::Int(i64::from(*number))),
        Value::Amount(amount) => Ok(Raw::Str(print_amount(alloc, *amount, scale(kind))?)),
        Value::Moment(seconds) => Ok(Raw::Str(print_moment(alloc, *seconds)?)),
        Value::Text(text) => Ok(Raw::Str(text.copy(alloc)?)),
        Value::Ref(id) => Ok(Raw::Str(Text::from_string(id.to_text(alloc)?))),
    }
}

// The decimals of a kind's amounts.
#[tactic(auto, unfolding(crate::specs::Typing::scale_of, crate::specs::Typing::HasScale))]
fn scale(kind: &Kind) -> u8
    requires { HasScale kind.now }
    ensures value { result ≡ scale_of kind.now }
    ensures few { result ≤ 4 }
{
    match kind {
        Kind::Amount { scale } => *scale,
        Kind::Flag => 0,
        Kind::Whole { .. } => 0,
        Kind::Choice { .. } => 0,
        Kind::Moment => 0,
        Kind::Text { .. } => 0,
        Kind::Ref => 0,
    }
}
