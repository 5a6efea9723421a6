//! Relationships, and which children what is done to a parent reaches.

ghost use Rattle.std.specs.Prelude.{◌≡◌};
ghost use Rattle.dv_schema.specs.Words.{cascade_word, cascade_of};

use dv_value::Text;

/// Rows of one table under rows of another, by a lookup column.
#[derive(Debug, Drop)]
pub struct Relationship {
    pub name: Text,
    /// The table that is looked up.
    pub parent: u16,
    /// The table that has the lookup.
    pub child: u16,
    /// The lookup, a column of the child.
    pub column: u16,
    pub assign: Cascade,
    pub share: Cascade,
    pub unshare: Cascade,
    pub reparent: Cascade,
    pub delete: Cascade,
}

/// Which children what is done to a parent reaches.
#[derive(Clone, Copy, Debug, PartialEq, Eq)]
pub enum Cascade {
    /// None.
    NoCascade,
    /// All.
    Cascade,
    /// The active ones.
    Active,
    /// Those with the parent's owner.
    UserOwned,
    /// None are deleted; their lookups are emptied.
    RemoveLink,
    /// None, and while there is one the parent stays.
    Restrict,
}

impl Cascade {
    /// The cascades.
    pub const ALL: [Cascade; 6] = [
        Cascade::NoCascade,
        Cascade::Cascade,
        Cascade::Active,
        Cascade::UserOwned,
        Cascade::RemoveLink,
        Cascade::Restrict,
    ];

    /// The word for it.
    #[tactic(auto, unfolding(crate::specs::Words::cascade_word))]
    pub fn word(self) -> &'static str
        ensures { result.now ≡ cascade_word self }
    {
        match self {
            Cascade::NoCascade => "nocascade",
            Cascade::Cascade => "cascade",
            Cascade::Active => "active",
            Cascade::UserOwned => "userowned",
            Cascade::RemoveLink => "removelink",
            Cascade::Restrict => "restrict",
        }
    }

    /// The cascade that a word says.
    #[tactic(auto, unfolding(crate::specs::Words::cascade_of))]
    pub fn parse(word: &str) -> Option<Cascade>
        ensures { result ≡ cascade_of word.now }
    {
        Cascade::ALL
            .iter()
            .copied()
            .find(|cascade| cascade.word() == word)
    }
}
