//! Values of the kinds that a column may have.
ghost use Rattle.std.specs.Prelude.{◌≡◌, IfOk};

use crate::id::Id;
use crate::text::Text;
use std::alloc::{AllocError, Global};

/// A value of a column.
#[derive(Debug, Drop)]
pub enum Value {
    /// No value.
    Empty,
    /// A truth value.
    Flag(bool),
    /// An integer.
    Whole(i32),
    /// One of the integers of a list.
    Choice(i32),
    /// A decimal number as the integer that its last decimal counts: 1.50 with two decimals is 150.
    Amount(i64),
    /// Whole seconds since 1970-01-01T00:00:00Z.
    Moment(i64),
    /// A text.
    Text(Text),
    /// The id of a row, a user or a team.
    Ref(Id),
}

impl Value {
    /// The same value. Only a text takes memory.
    pub fn copy(&self, alloc: Global) -> Result<Value, AllocError>
        ensures { IfOk result (λ copied. copied ≡ self.now) }
    {
        match self {
            Value::Empty => Ok(Value::Empty),
            Value::Flag(flag) => Ok(Value::Flag(*flag)),
            Value::Whole(number) => Ok(Value::Whole(*number)),
            Value::Choice(number) => Ok(Value::Choice(*number)),
            Value::Amount(amount) => Ok(Value::Amount(*amount)),
            Value::Moment(seconds) => Ok(Value::Moment(*seconds)),
            Value::Text(text) => Ok(Value::Text(text.copy(alloc)?)),
            Value::Ref(id) => Ok(Value::Ref(*id)),
        }
    }
}
