//! The total order of values.
ghost use Rattle.std.specs.Prelude.{◌≡◌, IfOk, chars, encode_utf8_all};
ghost use Rattle.std.specs.Ordering.{is_lt};
ghost use Rattle.std.specs.Cmp.{IsTotalOrder, IsStrictWeakOrder};
ghost use Rattle.dv_value.specs.Order.{number_of, id_number_of, characters_of, text_order, order};
ghost use Rattle.dv_value.specs.Spelling.{tag_of};

use crate::value::Value;
use caseless::default_case_fold_str;
use std::alloc::{AllocError, Global};
use std::cmp::Ordering;

/// The order of two values: Empty is least, values of one kind go by number, false before true, texts by the UTF-8
/// bytes of their case-folded form, and two kinds by their tags. Texts that fold alike are equal.
#[tactic(auto, unfolding(crate::specs::Order::order))]
pub fn compare(alloc: Global, a: &Value, b: &Value) -> Result<Ordering, AllocError>
    ensures { IfOk result (λ ordering. ordering ≡ order a.now b.now) }
{
    let by_number = tag(a)
        .cmp(&tag(b))
        .then(number(a).cmp(&number(b)))
        .then(id_number(a).cmp(&id_number(b)));
    match by_number {
        Ordering::Less => Ok(Ordering::Less),
        Ordering::Greater => Ok(Ordering::Greater),
        Ordering::Equal => Ok(compare_texts(alloc, text(a), text(b))?),
    }
}

/// The order of values is a total one up to case folding, which is what sorting asks. The call does nothing: what
/// it ensures is the law.
pub fn the_order_of_values_is_total()
    ensures total { IsTotalOrder order }
    ensures sorts { IsStrictWeakOrder (λ a b. is_lt (order a b)) }
{}

// The order of two texts. The same text needs no memory.
fn compare_texts(alloc: Global, a: &str, b: &str) -> Result<Ordering, AllocError>
    ensures { IfOk result (λ ordering. ordering ≡ text_order (chars a.now) (chars b.now)) }
{
    if a == b {
        return Ok(Ordering::Equal);
    }
    let a = default_case_fold_str(alloc, a)?;
    let b = default_case_fold_str(alloc, b)?;
    Ok(a.as_str().cmp(b.as_str()))
}

// The number of the value's kind.
#[tactic(auto, unfolding(crate::specs::Spelling::tag_of))]
fn tag(value: &Value) -> u8
    ensures { result ≡ tag_of value.now }
{
    match value {
        Value::Empty => 0,
        Value::Flag(_) => 1,
        Value::Whole(_) => 2,
        Value::Choice(_) => 3,
        Value::Amount(_) => 4,
        Value::Moment(_) => 5,
        Value::Text(_) => 6,
        Value::Ref(_) => 7,
    }
}

// The number that the value is ordered by within its kind, 0 where it has none or an id.
#[tactic(auto, unfolding(crate::specs::Order::number_of))]
fn number(value: &Value) -> i64
    ensures { result ≡ number_of value.now }
{
    match value {
        Value::Flag(false) | Value::Empty | Value::Text(_) | Value::Ref(_) => 0,
        Value::Flag(true) => 1,
        Value::Whole(number) | Value::Choice(number) => i64::from(*number),
        Value::Amount(number) | Value::Moment(number) => *number,
    }
}

// The number of an id, 0 where the value isn't one.
#[tactic(auto, unfolding(crate::specs::Order::id_number_of))]
fn id_number(value: &Value) -> u128
    ensures { result ≡ id_number_of value.now }
{
    match value {
        Value::Ref(id) => id.0,
        Value::Empty | Value::Flag(_) | Value::Whole(_) | Value::Choice(_) => 0,
        Value::Amount(_) | Value::Moment(_) | Value::Text(_) => 0,
    }
}

// The text, empty where the value isn't one.
#[tactic(auto, using(crate::proofs::Characters::no_characters), unfolding(crate::specs::Order::characters_of))]
fn text(value: &Value) -> &str
    ensures { chars result.now ≡ characters_of value.now }
{
    match value {
        Value::Text(text) => text.as_str(),
        Value::Empty => "",
        Value::Flag(_) => "",
        Value::Whole(_) => "",
        Value::Choice(_) => "",
        Value::Amount(_) => "",
        Value::Moment(_) => "",
        Value::Ref(_) => "",
    }
}
