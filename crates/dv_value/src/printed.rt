//! Texts, ids, versions and raw values as JSON.
ghost use Rattle.std.specs.Prelude.{◌≡◌, IfOk};
ghost use Rattle.serde_json.specs.Data.{no_members};
ghost use Rattle.serde_json.specs.View.{view, members_view};
ghost use Rattle.dv_value.specs.Printed.{text_data, id_data, version_data, raw_data, values_data, with_values};

use crate::id::Id;
use crate::json::add_member;
use crate::raw::{Raw, Values};
use crate::text::Text;
use serde_json::{Map, Value as Json};
use std::alloc::{AllocError, Global};

impl Text {
    /// The text as JSON.
    pub fn to_json(&self, alloc: Global) -> Result<Json, AllocError>
        ensures { IfOk result (λ json. view json ≡ text_data self.now) }
    {
        Ok(Json::String(String::from_str(alloc, self.as_str())?))
    }
}

impl Id {
    /// The id as JSON: a text, in lower case with hyphens.
    pub fn to_json(&self, alloc: Global) -> Result<Json, AllocError>
        ensures { IfOk result (λ json. view json ≡ id_data self.now) }
    {
        Ok(Json::String(self.to_text(alloc)?))
    }
}

impl Raw {
    /// The value as JSON.
    #[tactic(auto, unfolding(crate::specs::Printed::raw_data))]
    pub fn to_json(&self, alloc: Global) -> Result<Json, AllocError>
        ensures { IfOk result (λ json. view json ≡ raw_data self.now) }
    {
        match self {
            Raw::Null => Ok(Json::Null),
            Raw::Bool(flag) => Ok(Json::Bool(*flag)),
            Raw::Int(n) => Ok(Json::from(*n)),
            Raw::Str(text) => Ok(text.to_json(alloc)?),
        }
    }
}

impl Values {
    /// The values as a JSON object.
    #[tactic(auto, unfolding(crate::specs::Printed::values_data))]
    pub fn to_json(&self, alloc: Global) -> Result<Json, AllocError>
        ensures { IfOk result (λ json. view json ≡ values_data self.now) }
    {
        Ok(Json::Object(self.members(alloc)?))
    }

    // The values as the members of a JSON object.
    fn members(&self, alloc: Global) -> Result<Map<String, Json>, AllocError>
        ensures { IfOk result (λ members. members_view members.entries
            ≡ with_values self.now no_members) }
    {
        let mut members: Map<String, Json> = Map::new(alloc);
        for (name, value) in self.as_slice() {
            add_member(alloc, &mut members, name.as_str(), value.to_json(alloc)?)?;
        }
        Ok(members)
    }
}

/// A version as JSON: its number in decimal, as a text.
pub fn version_json(alloc: Global, version: u64) -> Result<Json, AllocError>
    ensures { IfOk result (λ json. view json ≡ version_data version) }
{
    Ok(Json::String(format!(in alloc; "{version}")?))
}
