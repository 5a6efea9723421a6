//! What a request asks: the messages, each with its word.
ghost use Rattle.std.specs.Prelude.{◌≡◌};
ghost use Rattle.dv_wire.specs.Verbs.{verb_word, verb_of};

use crate::grammar::{VERBS, WORDS};

/// What a request asks, by its word.
#[derive(Clone, Copy)]
pub(crate) enum Verb {
    Create,
    Retrieve,
    Update,
    Delete,
    Assign,
    Grant,
    Modify,
    Revoke,
    Access,
    Shares,
    Query,
    Changes,
    Rollup,
    WhoAmI,
    RollupJob,
    Trim,
    Multiple,
    Transaction,
    AddUnit,
    MoveUnit,
    AddUser,
    MoveUser,
    SetEnabled,
    AddTeam,
    AddMember,
    RemoveMember,
    AddRole,
    SetPrivileges,
    GiveRole,
    TakeRole,
}

impl Verb {
    // The word for it.
    #[tactic(auto, unfolding(crate::specs::Verbs::verb_word))]
    fn word(self) -> &'static str
        ensures { result.now ≡ verb_word self }
    {
        WORDS[self as usize]
    }

    // What a word asks, by its bytes.
    #[tactic(auto, unfolding(crate::specs::Verbs::verb_of))]
    pub(crate) fn parse(word: &[u8]) -> Option<Verb>
        ensures { result ≡ verb_of word.now }
    {
        VERBS
            .iter()
            .copied()
            .find(|verb| verb.word().as_bytes() == word)
    }
}
