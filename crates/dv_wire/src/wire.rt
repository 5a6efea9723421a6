//! The readers of lines and bodies: JSON, the first fault of its object, and what an object without a fault is.
ghost use Rattle.std.specs.Prelude.{◌≡◌, ℕ, List, true, None, Some, option_map, IfOk, IsErrOf, IsTrue};
ghost use Rattle.serde_json.specs.Data.{Data};
ghost use Rattle.serde_json.specs.View.{view};
ghost use Rattle.dv_value.specs.Json.{json_of};
ghost use Rattle.dv_wire.specs.Reads.{spelled, faulty, reads, message_reads, body_reads, body_json};
ghost use Rattle.dv_wire.specs.Spelled.{IsSpelled, has_members};
ghost use Rattle.dv_wire.specs.Verbs.{is_message, verb_of};

use crate::grammar::Rule;
use crate::member::id_at;
use crate::reading::{request_for, request_of};
use crate::verb::Verb;
use dv_form::first_fault;
use dv_request::Request;
use dv_value::{Id, JsonFault, Text, read_json};
use serde_json::{Map, Value as Json};
use std::alloc::{AllocError, Global};

/// Why a line or a body isn't read as a request.
#[derive(Debug, Drop)]
pub enum WireFault {
    /// It spells no request: the place of its first fault, empty for the whole of it.
    Malformed(Text),
    /// Out of memory.
    OutOfMemory,
}

impl From<AllocError> for WireFault {
    ghost use Rattle.std.specs.Prelude.{◌≡◌};
    ghost use Rattle.dv_wire.specs.declared.wire.WireFault.TheVariants.{OutOfMemory};

    ghost from_gives = { λ _ fault. fault ≡ OutOfMemory };

    fn from(_: AllocError) -> WireFault {
        WireFault::OutOfMemory
    }
}

/// Reads a line as a caller and a request. The line is JSON in UTF-8 (RFC 8259), an object with the caller's id, the
/// message's word and the message's members; of several faults the first by the order of the tables is told. A member
/// that is given twice counts with its last value. What is read has each member that its message needs, and each that
/// it has in its form.
pub fn read_request(alloc: Global, bytes: &[u8]) -> Result<(Id, Request), WireFault>
    ensures spelled { IfOk result (λ request. reads bytes.now ≡ spelled request) }
    ensures members { IfOk result (λ _. (d : Data) → json_of bytes.now ≡ Some d → IsSpelled d) }
    ensures malformed { (place : List ℕ) → IsErrOf result (WireFault.Malformed place)
        → reads bytes.now ≡ faulty place }
{
    let json = match read_json(alloc, bytes) {
        Ok(json) => json,
        Err(JsonFault::Malformed) => return Err(WireFault::Malformed(Text::new(alloc))),
        Err(JsonFault::OutOfMemory) => return Err(WireFault::OutOfMemory),
    };
    match first_fault(alloc, &json, Rule::Request)? {
        Some(fault) => Err(WireFault::Malformed(fault.place)),
        None => Ok((id_at(&json, "caller"), request_of(alloc, json)?)),
    }
}

/// Whether a word is that of a message, by which a body can be read.
#[tactic(auto, unfolding(crate::specs::Verbs::is_message))]
pub fn knows(word: &[u8]) -> bool
    ensures { result ≡ is_message word.now }
{
    Verb::parse(word).is_some()
}

/// Reads a body as a request of the message of a word. The body is a request's object as in a line, but its caller and
/// its message are known from elsewhere: `caller` and `do` are unknown members in it. An empty body is read as `{}`.
#[tactic(auto, unfolding(crate::specs::Verbs::is_message, crate::specs::Reads::body_reads))]
pub fn read_body(alloc: Global, word: &[u8], bytes: &[u8]) -> Result<Request, WireFault>
    requires { IsTrue (is_message word.now) }
    ensures spelled { IfOk result (λ request. body_reads word.now bytes.now
        ≡ Some (spelled request)) }
    ensures members { IfOk result (λ _. (d : Data) → body_json bytes.now ≡ Some d
        → option_map (λ verb. has_members verb d) (verb_of word.now) ≡ Some true) }
    ensures malformed { (place : List ℕ) → IsErrOf result (WireFault.Malformed place)
        → body_reads word.now bytes.now ≡ Some (faulty place) }
{
    match Verb::parse(word) {
        Some(verb) => message_of(alloc, verb, bytes),
        None => unreachable!(),
    }
}

// Reads a body as a request of a message.
fn message_of(alloc: Global, verb: Verb, bytes: &[u8]) -> Result<Request, WireFault>
    ensures spelled { IfOk result (λ request. message_reads verb bytes.now ≡ spelled request) }
    ensures members { IfOk result (λ _. (d : Data) → body_json bytes.now ≡ Some d
        → has_members verb d ≡ true) }
    ensures malformed { (place : List ℕ) → IsErrOf result (WireFault.Malformed place)
        → message_reads verb bytes.now ≡ faulty place }
{
    let json = match body_value(alloc, bytes) {
        Ok(json) => json,
        Err(JsonFault::Malformed) => return Err(WireFault::Malformed(Text::new(alloc))),
        Err(JsonFault::OutOfMemory) => return Err(WireFault::OutOfMemory),
    };
    match first_fault(alloc, &json, Rule::Body(verb))? {
        Some(fault) => Err(WireFault::Malformed(fault.place)),
        None => Ok(request_for(alloc, verb, json)?),
    }
}

// The JSON value of a body. An empty one is an object without members.
#[tactic(auto, unfolding(crate::specs::Reads::body_json))]
fn body_value(alloc: Global, bytes: &[u8]) -> Result<Json, JsonFault>
    ensures ok { IfOk result (λ json. body_json bytes.now ≡ Some (view json)) }
    ensures malformed { IsErrOf result JsonFault.Malformed → body_json bytes.now ≡ None }
{
    if bytes.is_empty() {
        return Ok(Json::Object(Map::new(alloc)));
    }
    read_json(alloc, bytes)
}
