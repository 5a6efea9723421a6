//! The public call that reads a definition.
ghost use Rattle.std.specs.Prelude.{◌≡◌, Some, IfOk, IfErr, OnOk};
ghost use Rattle.dv_meta.specs.Reader.{IsAccepted, IsFirstFault};
ghost use Rattle.dv_meta.specs.Resolved.{IsResolved};
ghost use Rattle.dv_schema.specs.Form.{draft_in};
ghost use Rattle.dv_schema.specs.Sound.{IsSound};

use crate::resolving::resolve;
use dv_schema::{DefFault, Definition, read_form};
use std::alloc::Global;

/// Reads a table definition: one JSON object of at most 1,048,576 bytes.
///
/// `steps` is how many steps there are for registrations to name. A definition is accepted whole, or its first fault
/// is told: that of its form, and then the first that the passes over the whole of it find. In an accepted one each name
/// of the text is resolved, and each number names what is there.
pub fn read_definition(alloc: Global, bytes: &[u8], steps: usize) -> Result<Definition, DefFault>
    ensures accepted { IfOk result (IsAccepted bytes.now steps) }
    ensures sound { IfOk result IsSound }
    ensures resolved { OnOk result (IsResolved (draft_in bytes.now) steps) }
    ensures refused { IfErr result (IsFirstFault bytes.now steps) }
{
    match read_form(alloc, bytes) {
        Ok(draft) => resolve(alloc, draft, steps),
        Err(fault) => Err(fault),
    }
}
