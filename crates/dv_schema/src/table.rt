//! Tables and their columns.

ghost use Rattle.std.specs.Prelude.{◌≡◌};
ghost use Rattle.dv_schema.specs.Words.{rollup_word, rollup_kind_of};

use dv_value::{Kind, Text};
use sqlite_items::Items;

/// A table with its columns.
#[derive(Debug, Drop)]
pub struct Table {
    pub name: Text,
    /// Whether users and teams own the rows; else the organisation does.
    pub user_owned: bool,
    /// Whether changes and removals of rows are told.
    pub tracking: bool,
    /// The system columns in byte order, then the definition's own, each rollup followed by its two companions.
    pub columns: Items<Column>,
}

/// A column of a table.
#[derive(Debug, Drop)]
pub struct Column {
    pub name: Text,
    pub kind: Kind,
    /// Whether a row must have a value here.
    pub required: bool,
    pub role: ColumnRole,
}

/// What a column is there for.
#[derive(Debug, Drop)]
pub enum ColumnRole {
    /// Every table has it, and the service keeps it.
    System,
    /// It holds what its kind says.
    Plain,
    /// It names a row, by the relationship of this number.
    Lookup(u16),
    /// It is calculated from other rows.
    Rollup(Rollup),
    /// It holds the state or the date of the rollup before it.
    Companion,
}

/// How a rollup is calculated.
#[derive(Debug, Drop)]
pub struct Rollup {
    pub kind: RollupKind,
    /// The relationship whose children are taken.
    pub over: u16,
    /// The children's column that is taken; a count has none.
    pub of: Option<u16>,
    /// Whether only active children are taken.
    pub active: bool,
}

/// What a rollup makes of the children's values.
#[derive(Clone, Copy, Debug, PartialEq, Eq)]
pub enum RollupKind {
    Sum,
    Count,
    Min,
    Max,
}

impl RollupKind {
    /// The kinds.
    pub const ALL: [RollupKind; 4] = [
        RollupKind::Sum,
        RollupKind::Count,
        RollupKind::Min,
        RollupKind::Max,
    ];

    /// The word for it.
    #[tactic(auto, unfolding(crate::specs::Words::rollup_word))]
    pub fn word(self) -> &'static str
        ensures { result.now ≡ rollup_word self }
    {
        match self {
            RollupKind::Sum => "sum",
            RollupKind::Count => "count",
            RollupKind::Min => "min",
            RollupKind::Max => "max",
        }
    }

    /// The kind of rollup that a word says.
    #[tactic(auto, unfolding(crate::specs::Words::rollup_kind_of))]
    pub fn parse(word: &str) -> Option<RollupKind>
        ensures { result ≡ rollup_kind_of word.now }
    {
        RollupKind::ALL
            .iter()
            .copied()
            .find(|kind| kind.word() == word)
    }
}
