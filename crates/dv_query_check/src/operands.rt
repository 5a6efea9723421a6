//! Whether a raw value is one that a condition may have.

ghost use Rattle.std.specs.Prelude.{◌≡◌, ◌&&◌, not};
ghost use Rattle.dv_query_check.specs.Operands.{is_short, is_integer, is_written, is_amount, is_flag, is_value, is_days, is_operand, first_wrong};

use crate::operators::{Operands, operands_of};
use dv_query::Operator;
use dv_value::{Id, Kind, Raw, Text, read_amount, read_moment};

/// The most decimals that an amount has.
pub(crate) const MOST_DECIMALS: u8 = 4;

/// The most days that a condition may count.
pub(crate) const MOST_DAYS: i64 = 10_000;

/// The least and the greatest integer of 32 bits.
const LEAST_SHORT: i64 = -2_147_483_648;

const GREATEST_SHORT: i64 = 2_147_483_647;

// Whether an integer has 32 bits.
#[tactic(auto, unfolding(crate::specs::Operands::is_short))]
fn is_short(number: i64) -> bool
    ensures { result ≡ is_short number }
{
    LEAST_SHORT <= number && number <= GREATEST_SHORT
}

// Whether values of the kind are truth values.
#[tactic(auto, unfolding(crate::specs::Operands::is_flag))]
fn is_flag(kind: &Kind) -> bool
    ensures { result ≡ is_flag kind.now }
{
    match kind {
        Kind::Flag => true,
        Kind::Whole { .. } => false,
        Kind::Choice { .. } => false,
        Kind::Amount { .. } => false,
        Kind::Moment => false,
        Kind::Text { .. } => false,
        Kind::Ref => false,
    }
}

// Whether values of the kind are integers.
#[tactic(auto, unfolding(crate::specs::Operands::is_integer))]
fn is_integer(kind: &Kind) -> bool
    ensures { result ≡ is_integer kind.now }
{
    match kind {
        Kind::Whole { .. } => true,
        Kind::Choice { .. } => true,
        Kind::Flag => false,
        Kind::Amount { .. } => false,
        Kind::Moment => false,
        Kind::Text { .. } => false,
        Kind::Ref => false,
    }
}

// Whether a text is one of a value of the kind.
#[tactic(auto, unfolding(crate::specs::Operands::is_written))]
fn is_written(kind: &Kind, text: &Text) -> bool
    ensures { result ≡ is_written kind.now text.now }
{
    match kind {
        Kind::Amount { scale } => is_amount(*scale, text),
        Kind::Moment => read_moment(text.as_str()).is_some(),
        Kind::Text { .. } => true,
        Kind::Ref => Id::parse(text.as_str()).is_some(),
        Kind::Flag => false,
        Kind::Whole { .. } => false,
        Kind::Choice { .. } => false,
    }
}

// Whether a text is an amount with at most so many decimals. No column has more than four.
#[tactic(auto, unfolding(crate::specs::Operands::is_amount))]
fn is_amount(scale: u8, text: &Text) -> bool
    ensures { result ≡ is_amount scale text.now }
{
    if scale > MOST_DECIMALS {
        return false;
    }
    read_amount(text.as_str(), scale).is_some()
}

// Whether a raw value is one of the kind, whatever the kind's limits.
#[tactic(auto, unfolding(crate::specs::Operands::is_value))]
fn is_value(kind: &Kind, raw: &Raw) -> bool
    ensures { result ≡ is_value kind.now raw.now }
{
    match raw {
        Raw::Null => false,
        Raw::Bool(_) => is_flag(kind),
        Raw::Int(number) => is_integer(kind) && is_short(*number),
        Raw::Str(text) => is_written(kind, text),
    }
}

// Whether a raw value is a number of days.
#[tactic(auto, unfolding(crate::specs::Operands::is_days))]
fn is_days(raw: &Raw) -> bool
    ensures { result ≡ is_days raw.now }
{
    match raw {
        Raw::Int(days) => 1 <= *days && *days <= MOST_DAYS,
        Raw::Null => false,
        Raw::Bool(_) => false,
        Raw::Str(_) => false,
    }
}

// Whether an operator may have a raw value on a column of the kind.
#[tactic(auto, unfolding(crate::specs::Operands::is_operand))]
fn is_operand(operands: Operands, kind: &Kind, raw: &Raw) -> bool
    ensures { result ≡ is_operand operands kind.now raw.now }
{
    match operands {
        Operands::Days => is_days(raw),
        Operands::Nothing => is_value(kind, raw),
        Operands::One => is_value(kind, raw),
        Operands::Two => is_value(kind, raw),
        Operands::Several => is_value(kind, raw),
    }
}

/// The place of the first raw value that an operator may not have on a column of the kind.
#[tactic(auto, unfolding(crate::specs::Operands::first_wrong))]
pub(crate) fn first_wrong(operator: Operator, kind: &Kind, raws: &[Raw]) -> Option<usize>
    ensures { result ≡ first_wrong operator kind.now raws.now }
{
    let operands = operands_of(operator);
    raws.iter().position(|raw| !is_operand(operands, kind, raw))
}
