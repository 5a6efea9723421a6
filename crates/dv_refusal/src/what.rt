//! What an organisation may hold only so many of.
ghost use Rattle.std.specs.Prelude.{◌≡◌, codes, IfOk};
ghost use Rattle.serde_json.specs.Data.{string};
ghost use Rattle.serde_json.specs.View.{view};
ghost use Rattle.dv_refusal.specs.Whats.{what_word};

use serde_json::Value as Json;
use std::alloc::{AllocError, Global};

/// What an organisation may hold only so many of.
#[derive(Clone, Copy, Debug, PartialEq, Eq)]
pub enum What {
    /// Rows and removals together.
    Row,
    /// Grants, one for each row and principal.
    Grant,
    /// Business units, the root among them.
    Unit,
    User,
    /// Teams besides the default ones.
    Team,
    /// Members of teams besides the default ones.
    Member,
    /// Security roles besides the administrator's.
    Role,
    /// Versions that the version counter can still give.
    Version,
    /// Ids that the id counter can still give.
    Id,
}

impl What {
    /// The word that a refusal says it by.
    #[tactic(auto, unfolding(crate::specs::Whats::what_word))]
    pub fn word(self) -> &'static str
        ensures { result.now ≡ what_word self }
    {
        match self {
            What::Row => "row",
            What::Grant => "grant",
            What::Unit => "unit",
            What::User => "user",
            What::Team => "team",
            What::Member => "member",
            What::Role => "role",
            What::Version => "version",
            What::Id => "id",
        }
    }

    /// The word as JSON.
    pub fn to_json(self, alloc: Global) -> Result<Json, AllocError>
        ensures { IfOk result (λ json. view json ≡ string (what_word self)) }
    {
        Ok(Json::String(String::from_str(alloc, self.word())?))
    }
}
