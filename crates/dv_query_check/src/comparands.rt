//! The values that conditions compare columns with.

ghost use Rattle.std.specs.Prelude.{◌≡◌, IfOk, Some, None, if◌then◌else◌};
ghost use Rattle.dv_query_check.specs.Comparands.{flag_in, number_in, text_in, amount_in, value_in, days_in, operand_in, operands_in};
ghost use Rattle.dv_query_check.specs.Operands.{is_short};

use crate::operands::{MOST_DAYS, MOST_DECIMALS};
use crate::operators::{Operands, operands_of};
use dv_query::Operator;
use dv_value::{Id, Kind, Raw, Text, Value, items_with_capacity, read_amount, read_moment};
use sqlite_items::Items;
use std::alloc::{AllocError, Global};

// The value that a truth value is in a kind.
#[tactic(auto, unfolding(crate::specs::Comparands::flag_in))]
fn flag_in(kind: &Kind, flag: bool) -> Option<Value>
    ensures { result ≡ flag_in kind.now flag }
{
    match kind {
        Kind::Flag => Some(Value::Flag(flag)),
        Kind::Whole { .. } => None,
        Kind::Choice { .. } => None,
        Kind::Amount { .. } => None,
        Kind::Moment => None,
        Kind::Text { .. } => None,
        Kind::Ref => None,
    }
}

// The number, where it is one of 32 bits.
#[tactic(auto, unfolding(crate::specs::Operands::is_short))]
fn short(number: i64) -> Option<i32>
    ensures { result ≡ (if is_short number then Some number else None) }
{
    if i64::from(i32::MIN) <= number && number <= i64::from(i32::MAX) {
        Some(number as i32)
    } else {
        None
    }
}

// The value that an integer is in a kind.
#[tactic(auto, unfolding(crate::specs::Comparands::number_in))]
fn number_in(kind: &Kind, number: i64) -> Option<Value>
    ensures { result ≡ number_in kind.now number }
{
    match kind {
        Kind::Whole { .. } => short(number).map(Value::Whole),
        Kind::Choice { .. } => short(number).map(Value::Choice),
        Kind::Flag => None,
        Kind::Amount { .. } => None,
        Kind::Moment => None,
        Kind::Text { .. } => None,
        Kind::Ref => None,
    }
}

// The amount that a text is, with at most so many decimals. No column has more than four.
#[tactic(auto, unfolding(crate::specs::Comparands::amount_in))]
fn amount_in(scale: u8, text: &Text) -> Option<Value>
    ensures { result ≡ amount_in scale text.now }
{
    if scale > MOST_DECIMALS {
        return None;
    }
    read_amount(text.as_str(), scale).map(Value::Amount)
}

// The value that a text is in a kind.
#[tactic(auto, unfolding(crate::specs::Comparands::text_in))]
fn text_in(alloc: Global, kind: &Kind, text: &Text) -> Result<Option<Value>, AllocError>
    ensures { IfOk result (λ value. value ≡ text_in kind.now text.now) }
{
    match kind {
        Kind::Amount { scale } => Ok(amount_in(*scale, text)),
        Kind::Moment => Ok(read_moment(text.as_str()).map(Value::Moment)),
        Kind::Text { .. } => Ok(Some(Value::Text(text.copy(alloc)?))),
        Kind::Ref => Ok(Id::parse(text.as_str()).map(Value::Ref)),
        Kind::Flag => Ok(None),
        Kind::Whole { .. } => Ok(None),
        Kind::Choice { .. } => Ok(None),
    }
}

// The value that a raw value is in a kind.
#[tactic(auto, unfolding(crate::specs::Comparands::value_in))]
fn value_in(alloc: Global, kind: &Kind, raw: &Raw) -> Result<Option<Value>, AllocError>
    ensures { IfOk result (λ value. value ≡ value_in kind.now raw.now) }
{
    match raw {
        Raw::Null => Ok(None),
        Raw::Bool(flag) => Ok(flag_in(kind, *flag)),
        Raw::Int(number) => Ok(number_in(kind, *number)),
        Raw::Str(text) => Ok(text_in(alloc, kind, text)?),
    }
}

// The whole number that a number of days is.
#[tactic(auto, unfolding(crate::specs::Comparands::days_in))]
fn days_in(raw: &Raw) -> Option<Value>
    ensures { result ≡ days_in raw.now }
{
    match raw {
        Raw::Int(days) => {
            if 1 <= *days && *days <= MOST_DAYS {
                Some(Value::Whole(*days as i32))
            } else {
                None
            }
        }
        Raw::Null => None,
        Raw::Bool(_) => None,
        Raw::Str(_) => None,
    }
}

// The value that an operator compares a column of the kind with.
#[tactic(auto, unfolding(crate::specs::Comparands::operand_in))]
fn operand_in(
    alloc: Global,
    operands: Operands,
    kind: &Kind,
    raw: &Raw,
) -> Result<Option<Value>, AllocError>
    ensures { IfOk result (λ value. value ≡ operand_in operands kind.now raw.now) }
{
    match operands {
        Operands::Days => Ok(days_in(raw)),
        Operands::Nothing => Ok(value_in(alloc, kind, raw)?),
        Operands::One => Ok(value_in(alloc, kind, raw)?),
        Operands::Two => Ok(value_in(alloc, kind, raw)?),
        Operands::Several => Ok(value_in(alloc, kind, raw)?),
    }
}

/// The values that an operator compares a column of the kind with, where each raw value is one.
pub(crate) fn operands_in(
    alloc: Global,
    operator: Operator,
    kind: &Kind,
    raws: &[Raw],
) -> Result<Option<Items<Value>>, AllocError>
    ensures { IfOk result (λ values. values ≡ operands_in operator kind.now raws.now) }
{
    let operands = operands_of(operator);
    let mut values = items_with_capacity(alloc, raws.len())?;
    for raw in raws {
        match operand_in(alloc, operands, kind, raw)? {
            Some(value) => values.push(value)?,
            None => return Ok(None),
        }
    }
    Ok(Some(values))
}
