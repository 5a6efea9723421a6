//! What a store keeps, cell by cell.
use crate::row::Row;

/// The counters of a store, and how much it holds.
#[derive(Clone, Copy, Debug)]
pub(crate) struct Totals {
    pub version: u64,
    pub last_id: u64,
    pub floor: u64,
    /// The rows and removals together.
    pub rows: u64,
    /// The grants.
    pub grants: u64,
}

/// What stands in a cell.
#[derive(Debug, Drop)]
pub(crate) enum Item {
    Row(Row),
    /// Direct and inherited rights.
    Grant(u32, u32),
    /// The version at which a row was removed.
    Removal(u64),
    Totals(Totals),
    /// A dirty rollup or a row in a list, which have nothing more to say.
    Present,
}
