//! Names with an ending.
ghost use Rattle.std.specs.Prelude.{◌≡◌, ◌++◌, IfOk, chars};

use dv_value::Text;
use std::alloc::{AllocError, Global};

/// A name followed by an ending.
pub(crate) fn with_ending(alloc: Global, name: &Text, ending: &str) -> Result<Text, AllocError>
    ensures { IfOk result (λ text. text ≡ name.now ++ chars ending.now) }
{
    let mut joined = String::from_str(alloc, name.as_str())?;
    joined.push_str(ending)?;
    Ok(Text::from_string(joined))
}
