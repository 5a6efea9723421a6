//! JSON out of bytes, and the members of an object.
ghost use Rattle.std.specs.Prelude.{◌≡◌, Some, None, IfOk, OnOk, OnErr, IsErrOf, option_map};
ghost use Rattle.serde_json.specs.Data.{put};
ghost use Rattle.serde_json.specs.Find.{get_member};
ghost use Rattle.serde_json.specs.View.{view, members_view};
ghost use Rattle.dv_value.specs.Json.{json_of, without};

use serde_json::{Category, Map, Value as Json};
use std::alloc::{AllocError, Global};

/// Why bytes aren't read as JSON.
#[derive(Clone, Copy, Debug, PartialEq, Eq)]
pub enum JsonFault {
    Malformed,
    OutOfMemory,
}

/// Reads bytes as JSON, as `serde_json` does: UTF-8 text, nested at most 127 deep, no byte order mark.
pub fn read_json(alloc: Global, bytes: &[u8]) -> Result<Json, JsonFault>
    ensures ok { IfOk result (λ json. json_of bytes.now ≡ Some (view json)) }
    ensures malformed { IsErrOf result JsonFault.Malformed → json_of bytes.now ≡ None }
{
    let text = match str::from_utf8(bytes) {
        Ok(text) => text,
        Err(_) => return Err(JsonFault::Malformed),
    };
    match Json::from_str(alloc, text) {
        Ok(json) => Ok(json),
        Err(error) => match error.classify() {
            Category::Memory => Err(JsonFault::OutOfMemory),
            _ => Err(JsonFault::Malformed),
        },
    }
}

/// Puts a member into a JSON object, in the place of one of the same name.
pub fn add_member(
    alloc: Global,
    members: &mut Map<String, Json>,
    name: &str,
    value: Json,
) -> Result<(), AllocError>
    ensures { OnOk result (members_view members.new.entries
        ≡ put name.now (view value) (members_view members.old.entries)) }
{
    members.insert(String::from_str(alloc, name)?, value)?;
    Ok(())
}

/// Takes a member out of a JSON object, if there is one of the name.
pub fn take_member(members: &mut Map<String, Json>, name: &str) -> Option<Json>
    ensures value { option_map view result
        ≡ get_member name.now (members_view members.old.entries) }
    ensures rest { members_view members.new.entries
        ≡ without name.now (members_view members.old.entries) }
{
    members.remove(name)
}
