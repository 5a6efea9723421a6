//! How many bytes a row takes in the store.
ghost use Rattle.std.specs.Prelude.{◌≡◌, nat_lt};
ghost use Rattle.dv_message.specs.Checked.{Answers};
ghost use Rattle.dv_message.specs.Sizes.{most_bytes, size_of, sizes_of, size_fault};

use crate::stop::Stop;
use dv_refusal::Refusal;
use dv_value::{Text, Value};
use std::alloc::Global;

/// The most bytes that a row takes.
const MOST_BYTES: usize = 4_096;

/// How many bytes a value takes.
#[tactic(auto, unfolding(dv_value::specs::Spelling::tag_of, dv_value::specs::Spelling::body_of))]
fn size_of(value: &Value) -> usize
    ensures { result ≡ size_of value.now }
{
    match value {
        Value::Empty => 1,
        Value::Flag(_) => 2,
        Value::Whole(_) => 5,
        Value::Choice(_) => 5,
        Value::Amount(_) => 9,
        Value::Moment(_) => 9,
        Value::Text(text) => 5 + text.as_str().len(),
        Value::Ref(_) => 17,
    }
}

/// Whether values take more bytes than a row may.
#[tactic(auto, unfolding(crate::specs::Sizes::sizes_of))]
fn is_too_large(values: &[Value]) -> bool
    ensures { result ≡ nat_lt most_bytes (sizes_of values.now) }
{
    let mut total = 0;
    for value in values {
        let size = size_of(value);
        if size > MOST_BYTES - total {
            return true;
        }
        total += size;
    }
    false
}

/// Checks that a row of these values isn't too large.
pub fn check_size(alloc: Global, values: &[Value]) -> Result<(), Stop>
    ensures { Answers (λ said. said ≡ size_fault values.now) result }
{
    if !is_too_large(values) {
        return Ok(());
    }
    Err(Stop::Refused(Refusal::OutOfRange {
        column: Text::from_str(alloc, "row")?,
    }))
}
