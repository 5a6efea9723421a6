//! Links to other tables, and the ways to join them.
ghost use Rattle.std.specs.Prelude.{◌≡◌};
ghost use Rattle.dv_query.specs.Words.{join_word, join_of};

use crate::filter::Filter;
use dv_value::{Names, Text};
use sqlite_items::Items;

/// A table joined to the one that it stands under, where two columns are equal.
#[derive(Debug, Drop)]
pub struct Link {
    pub table: Text,
    /// The column of the table that the link stands under.
    pub from: Text,
    /// The column of the link's own table.
    pub to: Text,
    pub join: Join,
    /// The name by which conditions, orders and columns of the answer speak of the link.
    pub alias: Option<Text>,
    pub columns: Names,
    pub filter: Option<Filter>,
    pub links: Items<Link>,
}

/// What becomes of a row with no partner, or with several.
#[derive(Clone, Copy, Debug, PartialEq, Eq)]
pub enum Join {
    /// One row for each partner.
    Inner,
    /// The same, and one row without a partner where there is none.
    Left,
    /// The row once, where there is a partner.
    Exists,
}

impl Join {
    /// The ways to join.
    pub const ALL: [Join; 3] = [Join::Inner, Join::Left, Join::Exists];

    /// The word for it.
    #[tactic(auto, unfolding(crate::specs::Words::join_word))]
    pub fn word(self) -> &'static str
        ensures { result.now ≡ join_word self }
    {
        match self {
            Join::Inner => "inner",
            Join::Left => "left",
            Join::Exists => "exists",
        }
    }

    /// The way to join that a word says.
    #[tactic(auto, unfolding(crate::specs::Words::join_of))]
    pub fn parse(word: &str) -> Option<Join>
        ensures { result ≡ join_of word.now }
    {
        Join::ALL.iter().copied().find(|join| join.word() == word)
    }
}
