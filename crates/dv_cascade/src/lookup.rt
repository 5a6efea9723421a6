//! Lookups of rows.
use dv_store::RowKey;

/// A lookup of a row: the row, and the number of the lookup's column. Lookups are ordered by table, id and column.
#[derive(Clone, Copy, Debug, PartialEq, Eq, PartialOrd, Ord)]
pub struct LookupKey {
    pub row: RowKey,
    pub column: u16,
}
