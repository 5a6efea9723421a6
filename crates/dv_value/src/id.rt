//! Ids, which are UUIDs.
ghost use Rattle.std.specs.Prelude.{◌≡◌, Some, option_map, string_bytes, IfOk};
ghost use Rattle.dv_value.specs.Ids.{id_of, id_text};

use std::alloc::{AllocError, Global};
use uuid::Uuid;

/// The id of a row, a unit, a user, a team or a role: a number of 128 bits, written as a UUID (RFC 9562).
#[derive(Clone, Copy, Debug, PartialEq, Eq, PartialOrd, Ord)]
pub struct Id(pub u128);

impl Id {
    /// Reads an id in any of the four forms of a UUID: with hyphens, without, in braces, or as a URN, in either
    /// case.
    #[tactic(auto, unfolding(crate::specs::Ids::id_of))]
    pub fn parse(text: &str) -> Option<Id>
        ensures { option_map (λ id. id.0) result ≡ id_of text.now }
    {
        match Uuid::parse_str(text) {
            Ok(uuid) => Some(Id(uuid.as_u128())),
            Err(_) => None,
        }
    }

    /// The id in lower case with hyphens.
    #[tactic(auto, unfolding(crate::specs::Ids::id_text))]
    pub fn to_text(&self, alloc: Global) -> Result<String, AllocError>
        ensures text { IfOk result (λ text. string_bytes text ≡ id_text self.now.0) }
        ensures read_again { IfOk result (λ text. id_of (string_bytes text) ≡ Some self.now.0) }
    {
        let uuid = Uuid::from_u128(self.0);
        let mut buffer = Uuid::encode_buffer();
        Ok(String::from_str(alloc, uuid.hyphenated().encode_lower(&mut buffer))?)
    }
}
