//! The kinds of values, with their limits.
use sqlite_items::Items;

/// What a column holds, with its limits.
#[derive(Debug, Drop)]
pub enum Kind {
    /// A truth value.
    Flag,
    /// An integer from `min` to `max`, both included.
    Whole { min: i32, max: i32 },
    /// One of the integers of a list.
    Choice { options: Items<i32> },
    /// A decimal number with `scale` decimals, 0 to 4, kept as the integer that its last decimal counts.
    Amount { scale: u8 },
    /// A moment in whole seconds since 1970-01-01T00:00:00Z.
    Moment,
    /// A text of at most `max` characters.
    Text { max: u32 },
    /// The id of a row, a user or a team.
    Ref,
}
