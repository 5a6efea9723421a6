//! The text of a member, looked at in its place.

ghost use Rattle.std.specs.Prelude.{◌≡◌, [], option_map, option_and_then, unwrap_or};
ghost use Rattle.std.specs.Str.{bytes_eq};
ghost use Rattle.serde_json.specs.Data.{null};
ghost use Rattle.serde_json.specs.Find.{as_str, get_member};
ghost use Rattle.serde_json.specs.View.{view, members_view};

use serde_json::{Map, Value as Json};

/// The text of a member, where it has one.
pub fn text_at<'a>(members: &'a Map<String, Json>, name: &str) -> Option<&'a str>
    ensures { option_map (λ text. text.now) result
        ≡ option_and_then as_str (get_member name.now (members_view members.now.entries)) }
{
    member_at(members, name).and_then(Json::as_str)
}

/// Whether the text of a member is this word. A member without a text has the empty one.
pub fn says_at(members: &Map<String, Json>, name: &str, word: &str) -> bool
    ensures { result ≡ bytes_eq
        (unwrap_or
        (as_str (unwrap_or (get_member name.now (members_view members.now.entries)) null))
        [])
        word.now }
{
    match member_at(members, name) {
        Some(value) => value.as_str().unwrap_or("") == word,
        None => word.is_empty(),
    }
}

// The member of a name.
fn member_at<'a>(members: &'a Map<String, Json>, name: &str) -> Option<&'a Json>
    ensures { option_map (λ value. view value.now) result
        ≡ get_member name.now (members_view members.now.entries) }
{
    members.get(name)
}
