//! Rows.
use dv_value::Value;
use sqlite_items::Items;

/// A row: its values in the order of its table's columns, the id left out.
///
/// Columns are numbered with the id, which is number 2. So the value of column `c` stands at place `c` where `c` is
/// below 2, and at place `c - 1` where it is above.
#[derive(Debug, Drop)]
pub struct Row {
    pub values: Items<Value>,
}
