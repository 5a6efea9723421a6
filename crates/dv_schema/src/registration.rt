//! Registrations of steps, and the messages that steps can be registered for.

ghost use Rattle.std.specs.Prelude.{◌≡◌};
ghost use Rattle.dv_schema.specs.Words.{message_word, message_of};

use dv_value::{Id, Names, Values};

/// A step that runs when a message comes to a table.
#[derive(Debug, Drop)]
pub struct Registration {
    /// The place of the step among those that the program has.
    pub step: usize,
    pub message: Message,
    pub table: u16,
    /// 10 before rights are asked, 20 before the effect, 40 after it.
    pub stage: u8,
    /// Steps of one stage run by rising rank.
    pub rank: u32,
    /// On update: the step is due only where one of these is given. None for all.
    pub columns: Option<Names>,
    /// The user that the step acts for; None for the caller.
    pub user: Option<Id>,
    /// The columns of the row before that the step sees.
    pub pre: Names,
    /// The columns of the row after that the step sees.
    pub post: Names,
    /// What the step is set to.
    pub config: Values,
}

/// A message that steps can be registered for.
#[derive(Clone, Copy, Debug, PartialEq, Eq)]
pub enum Message {
    Create,
    Update,
    Delete,
    Assign,
    Grant,
    Modify,
    Revoke,
}

impl Message {
    /// The messages.
    pub const ALL: [Message; 7] = [
        Message::Create,
        Message::Update,
        Message::Delete,
        Message::Assign,
        Message::Grant,
        Message::Modify,
        Message::Revoke,
    ];

    /// The word for it.
    #[tactic(auto, unfolding(crate::specs::Words::message_word))]
    pub fn word(self) -> &'static str
        ensures { result.now ≡ message_word self }
    {
        match self {
            Message::Create => "create",
            Message::Update => "update",
            Message::Delete => "delete",
            Message::Assign => "assign",
            Message::Grant => "grant",
            Message::Modify => "modify",
            Message::Revoke => "revoke",
        }
    }

    /// The message that a word says.
    #[tactic(auto, unfolding(crate::specs::Words::message_of))]
    pub fn parse(word: &str) -> Option<Message>
        ensures { result ≡ message_of word.now }
    {
        Message::ALL
            .iter()
            .copied()
            .find(|message| message.word() == word)
    }
}
