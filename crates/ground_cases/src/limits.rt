//! What the library's calls ask of a kind and of a value: a case that passes these limits is told, and not run.
ghost use Rattle.std.specs.Prelude.{IsTrue};
ghost use Rattle.dv_value.specs.Spelling.{HasSpelling};
ghost use Rattle.dv_value.specs.Typing.{HasScale, IsOfKind};

use dv_value::{Kind, Value};

// The first and the last second that a clock tells.
pub const FIRST_SECOND: i64 = -62_135_596_800;

pub const LAST_SECOND: i64 = 253_402_300_799;

pub const MOST_DECIMALS: u8 = 4;

// Whether an amount's kind has no more decimals than there are.
#[tactic(auto, unfolding(dv_value::specs::Typing::HasScale))]
pub fn has_scale(kind: &Kind) -> bool
    ensures { IsTrue result → HasScale kind.now }
{
    match kind {
        Kind::Amount { scale } => *scale <= MOST_DECIMALS,
        Kind::Flag | Kind::Whole { .. } | Kind::Choice { .. } => true,
        Kind::Moment | Kind::Text { .. } | Kind::Ref => true,
    }
}

// Whether a moment is one of a clock, and a text is short.
#[tactic(auto, unfolding(dv_value::specs::Spelling::HasSpelling))]
pub fn has_spelling(value: &Value) -> bool
    ensures { IsTrue result → HasSpelling value.now }
{
    match value {
        Value::Moment(seconds) => FIRST_SECOND <= *seconds && *seconds <= LAST_SECOND,
        Value::Text(text) => text.as_str().len() < 1_000_000,
        Value::Empty | Value::Flag(_) | Value::Whole(_) => true,
        Value::Choice(_) | Value::Amount(_) | Value::Ref(_) => true,
    }
}

// Whether a value is empty or of the kind.
#[tactic(auto, unfolding(dv_value::specs::Spelling::tag_of, dv_value::specs::Typing::kind_tag))]
pub fn is_of_kind(kind: &Kind, value: &Value) -> bool
    ensures { IsTrue result → IsOfKind kind.now value.now }
{
    match (kind, value) {
        (_, Value::Empty) => true,
        (Kind::Flag, Value::Flag(_)) => true,
        (Kind::Whole { .. }, Value::Whole(_)) => true,
        (Kind::Choice { .. }, Value::Choice(_)) => true,
        (Kind::Amount { .. }, Value::Amount(_)) => true,
        (Kind::Moment, Value::Moment(_)) => true,
        (Kind::Text { .. }, Value::Text(_)) => true,
        (Kind::Ref, Value::Ref(_)) => true,
        _ => false,
    }
}
