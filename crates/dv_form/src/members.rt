//! The id and the integer that a JSON value is.

ghost use Rattle.std.specs.Prelude.{◌≡◌};
ghost use Rattle.serde_json.specs.View.{view};
ghost use Rattle.dv_form.specs.Members as say;

use dv_value::Id;
use serde_json::Value as Json;

/// The id that a value is, in any of the forms of a UUID.
#[tactic(auto, unfolding(crate::specs::Members::id_in))]
pub fn id_in(json: &Json) -> Option<Id>
    ensures { result ≡ say.id_in (view json.now) }
{
    Id::parse(json.as_str()?)
}

/// The integer of 64 bits that a value is.
#[tactic(auto, unfolding(crate::specs::Members::integer_in))]
pub fn integer_in(json: &Json) -> Option<i64>
    ensures { result ≡ say.integer_in (view json.now) }
{
    json.as_i64()
}

/// Whether an integer has 32 bits: it is from -2^31 to 2^31 - 1.
pub(crate) fn is_short(n: i64) -> bool
    ensures { result ≡ say.is_short n }
{
    i32::try_from(n).is_ok()
}
