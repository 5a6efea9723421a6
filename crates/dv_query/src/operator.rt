//! The operators of conditions, and their words.
ghost use Rattle.std.specs.Prelude.{◌≡◌};
ghost use Rattle.dv_query.specs.Words.{operator_word, operator_of};

/// How a condition compares a column's value. An empty column meets `Null` alone.
#[derive(Clone, Copy, Debug, PartialEq, Eq)]
pub enum Operator {
    /// The value is the one given.
    Eq,
    /// The value is another one.
    Ne,
    /// The value is above the one given.
    Gt,
    /// The value is at least the one given.
    Ge,
    /// The value is below the one given.
    Lt,
    /// The value is at most the one given.
    Le,
    /// The value is from the first to the second, both included.
    Between,
    NotBetween,
    /// The value is one of those given.
    In,
    NotIn,
    /// The text matches a pattern, in which `%` stands for any characters and `_` for one.
    Like,
    NotLike,
    /// The text begins so.
    Begins,
    NotBegins,
    /// The text ends so.
    Ends,
    NotEnds,
    /// The text contains this.
    Contains,
    NotContains,
    /// The moment is on that day.
    On,
    /// The moment is on that day or before.
    OnOrBefore,
    /// The moment is on that day or after.
    OnOrAfter,
    /// The moment is today.
    Today,
    /// The moment is yesterday.
    Yesterday,
    /// The moment is tomorrow.
    Tomorrow,
    /// The moment is in the last days, so many.
    LastDays,
    /// The moment is in the next days, so many.
    NextDays,
    /// The value is the caller.
    Me,
    /// The value is not the caller.
    NotMe,
    /// The value is a team of the caller.
    MyTeams,
    /// The value is the caller or a team of the caller.
    MeOrMyTeams,
    /// The column is empty.
    Null,
    /// The column is not empty.
    NotNull,
}

impl Operator {
    /// The operators.
    pub const ALL: [Operator; 32] = [
        Operator::Eq,
        Operator::Ne,
        Operator::Gt,
        Operator::Ge,
        Operator::Lt,
        Operator::Le,
        Operator::Between,
        Operator::NotBetween,
        Operator::In,
        Operator::NotIn,
        Operator::Like,
        Operator::NotLike,
        Operator::Begins,
        Operator::NotBegins,
        Operator::Ends,
        Operator::NotEnds,
        Operator::Contains,
        Operator::NotContains,
        Operator::On,
        Operator::OnOrBefore,
        Operator::OnOrAfter,
        Operator::Today,
        Operator::Yesterday,
        Operator::Tomorrow,
        Operator::LastDays,
        Operator::NextDays,
        Operator::Me,
        Operator::NotMe,
        Operator::MyTeams,
        Operator::MeOrMyTeams,
        Operator::Null,
        Operator::NotNull,
    ];

    /// The word for it.
    #[tactic(auto, unfolding(crate::specs::Words::operator_word))]
    pub fn word(self) -> &'static str
        ensures { result.now ≡ operator_word self }
    {
        match self {
            Operator::Eq => "eq",
            Operator::Ne => "ne",
            Operator::Gt => "gt",
            Operator::Ge => "ge",
            Operator::Lt => "lt",
            Operator::Le => "le",
            Operator::Between => "between",
            Operator::NotBetween => "not-between",
            Operator::In => "in",
            Operator::NotIn => "not-in",
            Operator::Like => "like",
            Operator::NotLike => "not-like",
            Operator::Begins => "begins",
            Operator::NotBegins => "not-begins",
            Operator::Ends => "ends",
            Operator::NotEnds => "not-ends",
            Operator::Contains => "contains",
            Operator::NotContains => "not-contains",
            Operator::On => "on",
            Operator::OnOrBefore => "on-or-before",
            Operator::OnOrAfter => "on-or-after",
            Operator::Today => "today",
            Operator::Yesterday => "yesterday",
            Operator::Tomorrow => "tomorrow",
            Operator::LastDays => "last-days",
            Operator::NextDays => "next-days",
            Operator::Me => "me",
            Operator::NotMe => "not-me",
            Operator::MyTeams => "my-teams",
            Operator::MeOrMyTeams => "me-or-my-teams",
            Operator::Null => "null",
            Operator::NotNull => "not-null",
        }
    }

    /// The operator that a word says.
    #[tactic(auto, unfolding(crate::specs::Words::operator_of))]
    pub fn parse(word: &str) -> Option<Operator>
        ensures { result ≡ operator_of word.now }
    {
        Operator::ALL
            .iter()
            .copied()
            .find(|operator| operator.word() == word)
    }
}
