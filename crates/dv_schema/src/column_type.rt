//! The types that a definition gives its columns.

ghost use Rattle.std.specs.Prelude.{◌≡◌};
ghost use Rattle.dv_schema.specs.Words.{type_word, type_of};

/// What a definition calls the type of a column.
#[derive(Clone, Copy)]
pub(crate) enum ColumnType {
    Flag,
    Moment,
    Lookup,
    Whole,
    Choice,
    Amount,
    Text,
    Rollup,
}

impl ColumnType {
    /// The types.
    pub(crate) const ALL: [ColumnType; 8] = [
        ColumnType::Flag,
        ColumnType::Moment,
        ColumnType::Lookup,
        ColumnType::Whole,
        ColumnType::Choice,
        ColumnType::Amount,
        ColumnType::Text,
        ColumnType::Rollup,
    ];

    /// The word for it.
    #[tactic(auto, unfolding(crate::specs::Words::type_word))]
    pub(crate) fn word(self) -> &'static str
        ensures { result.now ≡ type_word self }
    {
        match self {
            ColumnType::Flag => "flag",
            ColumnType::Moment => "moment",
            ColumnType::Lookup => "lookup",
            ColumnType::Whole => "whole",
            ColumnType::Choice => "choice",
            ColumnType::Amount => "amount",
            ColumnType::Text => "text",
            ColumnType::Rollup => "rollup",
        }
    }

    /// The type that a word says.
    #[tactic(auto, unfolding(crate::specs::Words::type_of))]
    pub(crate) fn parse(word: &str) -> Option<ColumnType>
        ensures { result ≡ type_of word.now }
    {
        ColumnType::ALL
            .iter()
            .copied()
            .find(|kind| kind.word() == word)
    }
}
