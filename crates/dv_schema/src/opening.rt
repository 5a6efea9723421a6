//! The directory that a new organisation begins with, and the security roles of a definition or a message.

ghost use Rattle.std.specs.Prelude.{◌≡◌};
ghost use Rattle.dv_schema.specs.Words.{action_word, action_of};

use dv_value::{Id, Text};
use sqlite_items::Items;

/// What a privilege allows.
#[derive(Clone, Copy, Debug, PartialEq, Eq)]
pub enum Action {
    Create,
    Read,
    Write,
    Delete,
    Append,
    AppendTo,
    Assign,
    Share,
}

impl Action {
    /// The actions.
    pub const ALL: [Action; 8] = [
        Action::Create,
        Action::Read,
        Action::Write,
        Action::Delete,
        Action::Append,
        Action::AppendTo,
        Action::Assign,
        Action::Share,
    ];

    /// The word for it.
    #[tactic(auto, unfolding(crate::specs::Words::action_word))]
    pub fn word(self) -> &'static str
        ensures { result.now ≡ action_word self }
    {
        match self {
            Action::Create => "Create",
            Action::Read => "Read",
            Action::Write => "Write",
            Action::Delete => "Delete",
            Action::Append => "Append",
            Action::AppendTo => "AppendTo",
            Action::Assign => "Assign",
            Action::Share => "Share",
        }
    }

    /// The action that a word says.
    #[tactic(auto, unfolding(crate::specs::Words::action_of))]
    pub fn parse(word: &str) -> Option<Action>
        ensures { result ≡ action_of word.now }
    {
        Action::ALL
            .iter()
            .copied()
            .find(|action| action.word() == word)
    }
}

/// A privilege of a role, as a definition or a message has it.
#[derive(Debug, Drop)]
pub struct Entry {
    /// None for every action that the table has.
    pub action: Option<Action>,
    /// None for every user-owned table, and at depth 3 for every table that has the action.
    pub table: Option<Text>,
    /// 0 user, 1 business unit, 2 parent-child, 3 organisation.
    pub depth: u8,
}

/// A security role.
#[derive(Debug, Drop)]
pub struct Role {
    pub id: Id,
    /// Whether a team's role also counts as its members' own at depth 0.
    pub direct: bool,
    /// Whether it lets manage the directory.
    pub manage: bool,
    pub entries: Items<Entry>,
}

/// The directory that a new organisation begins with.
#[derive(Debug, Drop)]
pub struct Opening {
    /// The root business unit.
    pub root: Id,
    /// The first user, in the root unit, who has the System Administrator role.
    pub admin: Id,
    pub units: Items<OpeningUnit>,
    pub roles: Items<Role>,
    pub users: Items<OpeningUser>,
    pub teams: Items<OpeningTeam>,
}

/// A business unit to begin with.
#[derive(Debug, Drop)]
pub struct OpeningUnit {
    pub id: Id,
    pub parent: Id,
}

/// A user to begin with, and the user's roles.
#[derive(Debug, Drop)]
pub struct OpeningUser {
    pub id: Id,
    pub unit: Id,
    pub roles: Items<Id>,
}

/// A team to begin with, its members and its roles.
#[derive(Debug, Drop)]
pub struct OpeningTeam {
    pub id: Id,
    pub unit: Id,
    /// Whether it is an access team, which owns no rows and has no roles; else it is an owner team.
    pub access: bool,
    pub members: Items<Id>,
    pub roles: Items<Id>,
}
