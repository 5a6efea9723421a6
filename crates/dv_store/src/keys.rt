//! Where things stand in a store.
use dv_value::Id;

/// The place of a row: its table's number and its id. Rows are ordered by table, then id.
#[derive(Clone, Copy, Debug, PartialEq, Eq, PartialOrd, Ord)]
pub struct RowKey {
    pub table: u16,
    pub id: Id,
}

/// The place of a grant: its row, and the user or team that has it.
#[derive(Clone, Copy, Debug, PartialEq, Eq, PartialOrd, Ord)]
pub struct GrantKey {
    pub row: RowKey,
    pub principal: Id,
}

/// A rollup of a row that has to be calculated: the row, and the number of the rollup's column.
#[derive(Clone, Copy, Debug, PartialEq, Eq, PartialOrd, Ord)]
pub struct DirtyKey {
    pub row: RowKey,
    pub column: u16,
}

/// A place of the world, at which something stands or nothing.
#[derive(Clone, Copy, Debug, PartialEq, Eq, PartialOrd, Ord)]
pub enum Place {
    /// A row.
    Row(RowKey),
    /// The grant of a principal on a row.
    Grant(GrantKey),
    /// What a removed row left.
    Removal(RowKey),
    /// Whether a rollup has to be calculated.
    Dirty(DirtyKey),
    /// The version counter, the id counter and the floor.
    Counters,
}

/// By what rows are listed.
#[derive(Clone, Copy, Debug, PartialEq, Eq, PartialOrd, Ord)]
pub(crate) enum By {
    /// By those who have grants on them.
    Grant,
    /// By the id that the value at this place names.
    Place(u16),
}

/// A list of rows of one table: those that name an id at a place, or on which an id has a grant.
#[derive(Clone, Copy, Debug, PartialEq, Eq, PartialOrd, Ord)]
pub(crate) struct Listing {
    pub table: u16,
    pub by: By,
    pub of: Id,
}

/// A row in a list.
#[derive(Clone, Copy, Debug, PartialEq, Eq, PartialOrd, Ord)]
pub(crate) struct Entry {
    pub list: Listing,
    pub id: Id,
}

/// Where a cell of the store stands: at a place of the world, or in a list.
#[derive(Clone, Copy, Debug, PartialEq, Eq, PartialOrd, Ord)]
pub(crate) enum Key {
    At(Place),
    In(Entry),
}
