//! Filters: conditions on columns, joined by `and` or `or`.
use crate::operator::Operator;
use dv_value::{Raw, Text};
use sqlite_items::Items;

/// Conditions and further filters, of which all or any must hold. One without parts holds.
#[derive(Debug, Drop)]
pub struct Filter {
    /// Whether one part is enough; else all must hold.
    pub any: bool,
    pub conditions: Items<Condition>,
    pub filters: Items<Filter>,
}

/// A column's value compared with others.
#[derive(Debug, Drop)]
pub struct Condition {
    pub column: Text,
    /// The alias of the link whose column it is; None for the filter's own table.
    pub link: Option<Text>,
    pub operator: Operator,
    pub values: Items<Raw>,
}
