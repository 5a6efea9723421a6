//! The members of a refusal's JSON that say what it is about.
ghost use Rattle.std.specs.Prelude.{◌≡◌, IfOk};
ghost use Rattle.serde_json.specs.Data.{put, member, no_members};
ghost use Rattle.serde_json.specs.View.{view, members_view};
ghost use Rattle.dv_value.specs.Printed.{text_data, version_data};
ghost use Rattle.dv_refusal.specs.Refusals.{details_of};

use crate::refusal::Refusal;
use dv_value::{Id, Text, add_member, version_json};
use serde_json::{Map, Value as Json};
use std::alloc::{AllocError, Global};

impl Refusal {
    // The members that say what the refusal is about.
    #[tactic(auto, unfolding(crate::specs::Refusals::details_of))]
    pub(crate) fn details(&self, alloc: Global) -> Result<Map<String, Json>, AllocError>
        ensures { IfOk result (λ members. members_view members.entries ≡ details_of self.now) }
    {
        match self {
            Refusal::BadDefinition { kind, place } => two_texts(
                alloc, "kind", kind, "place", place,
            ),
            Refusal::BadStore { key, sheet } => cell(alloc, key, *sheet),
            Refusal::Malformed { place } => one_text(alloc, "place", place),
            Refusal::UnknownTable { table } | Refusal::NotShareable { table } => {
                one_text(alloc, "table", table)
            }
            Refusal::UnknownColumn { column }
            | Refusal::WrongType { column }
            | Refusal::NotWritable { column }
            | Refusal::OutOfRange { column }
            | Refusal::RequiredMissing { column } => one_text(alloc, "column", column),
            Refusal::Denied { privilege, why } => {
                two_texts(alloc, "privilege", privilege, "why", why)
            }
            Refusal::NotFound { id, table } => row(alloc, *id, table),
            Refusal::VersionDiffers { kept } => one_version(alloc, "kept", *kept),
            Refusal::Restricted { relationship } | Refusal::Circular { relationship } => {
                one_text(alloc, "relationship", relationship)
            }
            Refusal::StepFailed { code, step, text } => failed_step(alloc, *code, *step, text),
            Refusal::StepTurns { step } => one(alloc, "step", Json::from(*step)),
            Refusal::BadQuery { kind, part } => two_texts(alloc, "kind", kind, "part", part),
            Refusal::BadToken { counter } => one_version(alloc, "counter", *counter),
            Refusal::TokenExpired { floor } => one_version(alloc, "floor", *floor),
            Refusal::UnitRule { why } | Refusal::TeamRule { why } | Refusal::RoleRule { why } => {
                one_text(alloc, "why", why)
            }
            Refusal::Limit { what } => one(alloc, "what", what.to_json(alloc)?),
            Refusal::UnknownCaller
            | Refusal::CallerDisabled
            | Refusal::IdTaken
            | Refusal::ReservedId
            | Refusal::BadPrincipal
            | Refusal::DepthExceeded
            | Refusal::WorkLimit
            | Refusal::AnswerLimit
            | Refusal::BadCookie
            | Refusal::TrackingOff
            | Refusal::BatchLimit
            | Refusal::NotNested
            | Refusal::UnknownUnit
            | Refusal::UnknownUser
            | Refusal::UnknownTeam
            | Refusal::UnknownRole
            | Refusal::DirectoryIdTaken
            | Refusal::LastAdmin
            | Refusal::StoreFault
            | Refusal::ClockFault
            | Refusal::OutOfMemory
            | Refusal::NotBuilt => Ok(Map::new(alloc)),
        }
    }
}

// An object of one member.
fn one(alloc: Global, name: &str, value: Json) -> Result<Map<String, Json>, AllocError>
    ensures { IfOk result (λ members. members_view members.entries
        ≡ member name.now (view value) no_members) }
{
    let mut members: Map<String, Json> = Map::new(alloc);
    add_member(alloc, &mut members, name, value)?;
    Ok(members)
}

// An object of one text.
fn one_text(alloc: Global, name: &str, text: &Text) -> Result<Map<String, Json>, AllocError>
    ensures { IfOk result (λ members. members_view members.entries
        ≡ member name.now (text_data text.now) no_members) }
{
    one(alloc, name, text.to_json(alloc)?)
}

// An object of one version.
fn one_version(alloc: Global, name: &str, version: u64) -> Result<Map<String, Json>, AllocError>
    ensures { IfOk result (λ members. members_view members.entries
        ≡ member name.now (version_data version) no_members) }
{
    one(alloc, name, version_json(alloc, version)?)
}

// An object with a text added.
fn with_text(
    alloc: Global,
    mut members: Map<String, Json>,
    name: &str,
    text: &Text,
) -> Result<Map<String, Json>, AllocError>
    ensures { IfOk result (λ result. members_view result.entries
        ≡ put name.now (text_data text.now) (members_view members.entries)) }
{
    let text = text.to_json(alloc)?;
    add_member(alloc, &mut members, name, text)?;
    Ok(members)
}

// An object of two texts.
fn two_texts(
    alloc: Global,
    first: &str,
    text: &Text,
    second: &str,
    other: &Text,
) -> Result<Map<String, Json>, AllocError>
    ensures { IfOk result (λ members. members_view members.entries
        ≡ put second.now (text_data other.now) (member first.now (text_data text.now) no_members)) }
{
    with_text(alloc, one_text(alloc, first, text)?, second, other)
}

// What a wrong cell says.
#[tactic(auto, unfolding(crate::specs::Refusals::details_of))]
fn cell(alloc: Global, key: &Text, sheet: u8) -> Result<Map<String, Json>, AllocError>
    ensures { IfOk result (λ members. members_view members.entries
        ≡ details_of (Refusal.BadStore key.now sheet)) }
{
    let mut members = one_text(alloc, "key", key)?;
    add_member(alloc, &mut members, "sheet", Json::from(sheet))?;
    Ok(members)
}

// What a missing row says.
#[tactic(auto, unfolding(crate::specs::Refusals::details_of))]
fn row(alloc: Global, id: Id, table: &Text) -> Result<Map<String, Json>, AllocError>
    ensures { IfOk result (λ members. members_view members.entries
        ≡ details_of (Refusal.NotFound id table.now)) }
{
    with_text(alloc, one(alloc, "id", id.to_json(alloc)?)?, "table", table)
}

// What a failed step says.
#[tactic(auto, unfolding(crate::specs::Refusals::details_of))]
fn failed_step(
    alloc: Global,
    code: i32,
    step: u32,
    text: &Text,
) -> Result<Map<String, Json>, AllocError>
    ensures { IfOk result (λ members. members_view members.entries
        ≡ details_of (Refusal.StepFailed code step text.now)) }
{
    let mut members = one(alloc, "code", Json::from(code))?;
    add_member(alloc, &mut members, "step", Json::from(step))?;
    with_text(alloc, members, "text", text)
}
