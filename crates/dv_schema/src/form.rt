//! From the bytes of a definition to what they say, or to the first fault of their form.

ghost use Rattle.std.specs.Prelude.{◌≡◌, Some, None, IfOk, IfErr};
ghost use Rattle.serde_json.specs.View.{view};
ghost use Rattle.dv_schema.specs.Form as say;
ghost use Rattle.dv_schema.specs.Limits.{IsWithinLimits};
ghost use Rattle.dv_schema.specs.Reading.{draft_of};

use crate::draft::Draft;
use crate::fault::{DefFault, DefKind};
use crate::grammar::Rule;
use crate::limits::MAX_BYTES;
use crate::reading::read_draft;
use dv_form::{Fault, FaultKind, first_fault};
use dv_value::{JsonFault, Text, read_json};
use serde_json::Value as Json;
use std::alloc::Global;

/// What a text says, or the first fault of its form.
#[tactic(auto, unfolding(crate::specs::Form::form_fault, crate::specs::Form::fault_of_read, crate::specs::Form::draft_in))]
pub fn read_form(alloc: Global, bytes: &[u8]) -> Result<Draft, DefFault>
    ensures fault { IfErr result (λ fault. (fault ≡ DefFault.OutOfMemory → ⊥)
        → say.form_fault bytes.now ≡ Some fault) }
    ensures accepted { IfOk result (λ draft. say.form_fault bytes.now ≡ None) }
    ensures draft { IfOk result (λ draft. draft ≡ say.draft_in bytes.now) }
    ensures limits { IfOk result (λ draft. IsWithinLimits draft) }
{
    if bytes.len() > MAX_BYTES {
        return Err(not_json(alloc));
    }
    match read_json(alloc, bytes) {
        Ok(json) => read_object(alloc, json),
        Err(JsonFault::Malformed) => Err(not_json(alloc)),
        Err(JsonFault::OutOfMemory) => Err(DefFault::OutOfMemory),
    }
}

// What a JSON value says, or the first fault of its form.
#[tactic(auto, unfolding(crate::specs::Form::fault_in))]
fn read_object(alloc: Global, json: Json) -> Result<Draft, DefFault>
    ensures fault { IfErr result (λ fault. (fault ≡ DefFault.OutOfMemory → ⊥)
        → say.fault_in (view json) ≡ Some fault) }
    ensures accepted { IfOk result (λ draft. say.fault_in (view json) ≡ None) }
    ensures draft { IfOk result (λ draft. draft ≡ draft_of (view json)) }
    ensures limits { IfOk result (λ draft. IsWithinLimits draft) }
{
    if !json.is_object() {
        return Err(not_json(alloc));
    }
    match first_fault(alloc, &json, Rule::Definition) {
        Ok(Some(fault)) => Err(bad(fault)),
        Ok(None) => match read_draft(alloc, json) {
            Ok(draft) => Ok(draft),
            Err(_) => Err(DefFault::OutOfMemory),
        },
        Err(_) => Err(DefFault::OutOfMemory),
    }
}

// No JSON object, at the empty place.
fn not_json(alloc: Global) -> DefFault
    ensures { result ≡ say.not_json }
{
    DefFault::Bad {
        kind: DefKind::NotJson,
        place: Text::new(alloc),
    }
}

// A fault of form as one of a definition.
#[tactic(auto, unfolding(crate::specs::Form::kind_of))]
fn bad(fault: Fault) -> DefFault
    ensures { result ≡ DefFault.Bad (say.kind_of fault.kind) fault.place }
{
    let Fault { kind, place } = fault;
    match kind {
        FaultKind::Unlisted => DefFault::Bad {
            kind: DefKind::UnknownField,
            place,
        },
        FaultKind::Wrong => DefFault::Bad {
            kind: DefKind::BadForm,
            place,
        },
        FaultKind::TooLong => DefFault::Bad {
            kind: DefKind::Limit,
            place,
        },
    }
}
