//! A refusal by its number and its fields, as `{"refusal":"UnknownTable","nr":13,"table":"t"}`.
use crate::fields::{count, id, number, signed, text, word};
use case_notation::Fault;
use dv_refusal::{Refusal, What};
use dv_value::Text;
use serde_json::Value as Json;
use std::alloc::Global;

/// The refusal that an object says.
pub fn refusal(alloc: Global, fields: &Json) -> Result<Refusal, Fault> {
    let nr = number(fields, "nr")?;
    match nr {
        1 => bad_definition(alloc, fields),
        2 => bad_store(alloc, fields),
        20 => denied(alloc, fields),
        21 => not_found(alloc, fields),
        23 | 30..=32 | 37 | 38 => counted(nr, fields),
        29 => step_failed(alloc, fields),
        33 => bad_query(alloc, fields),
        50 => limit(fields),
        10 | 13..=18 | 25..=27 | 46..=48 => named(nr, about(alloc, nr, fields)?),
        11..=39 => bare(nr),
        _ => bare_too(nr),
    }
}

const NO_REFUSAL: Fault = Fault::Wrong("no refusal has the number");

// The refusals without fields.
fn bare(nr: u64) -> Result<Refusal, Fault> {
    match nr {
        11 => Ok(Refusal::UnknownCaller),
        12 => Ok(Refusal::CallerDisabled),
        22 => Ok(Refusal::IdTaken),
        24 => Ok(Refusal::ReservedId),
        28 => Ok(Refusal::BadPrincipal),
        34 => Ok(Refusal::AnswerLimit),
        35 => Ok(Refusal::BadCookie),
        36 => Ok(Refusal::TrackingOff),
        39 => Ok(Refusal::BatchLimit),
        _ => Err(NO_REFUSAL),
    }
}

fn bare_too(nr: u64) -> Result<Refusal, Fault> {
    match nr {
        40 => Ok(Refusal::NotNested),
        41 => Ok(Refusal::UnknownUnit),
        42 => Ok(Refusal::UnknownUser),
        43 => Ok(Refusal::UnknownTeam),
        44 => Ok(Refusal::UnknownRole),
        45 => Ok(Refusal::DirectoryIdTaken),
        49 => Ok(Refusal::LastAdmin),
        60 => Ok(Refusal::StoreFault),
        61 => Ok(Refusal::ClockFault),
        62 => Ok(Refusal::OutOfMemory),
        90 => Ok(Refusal::NotBuilt),
        _ => Err(NO_REFUSAL),
    }
}

// The only field of a refusal of a name.
fn about(alloc: Global, nr: u64, fields: &Json) -> Result<Text, Fault> {
    match nr {
        10 => text(alloc, fields, "place"),
        13 | 27 => text(alloc, fields, "table"),
        25 | 26 => text(alloc, fields, "relationship"),
        46..=48 => text(alloc, fields, "why"),
        _ => text(alloc, fields, "column"),
    }
}

// The refusals whose only field is a text.
fn named(nr: u64, text: Text) -> Result<Refusal, Fault> {
    match nr {
        10 => Ok(Refusal::Malformed { place: text }),
        13 => Ok(Refusal::UnknownTable { table: text }),
        14 => Ok(Refusal::UnknownColumn { column: text }),
        15 => Ok(Refusal::WrongType { column: text }),
        16 => Ok(Refusal::NotWritable { column: text }),
        17 => Ok(Refusal::OutOfRange { column: text }),
        18 => Ok(Refusal::RequiredMissing { column: text }),
        _ => named_too(nr, text),
    }
}

fn named_too(nr: u64, text: Text) -> Result<Refusal, Fault> {
    match nr {
        25 => Ok(Refusal::Restricted { relationship: text }),
        26 => Ok(Refusal::Circular { relationship: text }),
        27 => Ok(Refusal::NotShareable { table: text }),
        46 => Ok(Refusal::UnitRule { why: text }),
        47 => Ok(Refusal::TeamRule { why: text }),
        48 => Ok(Refusal::RoleRule { why: text }),
        _ => Err(NO_REFUSAL),
    }
}

// The refusals of a depth, of work, and those whose only field is a number.
fn counted(nr: u64, fields: &Json) -> Result<Refusal, Fault> {
    match nr {
        23 => kept(number(fields, "kept")?),
        30 => Ok(Refusal::DepthExceeded),
        31 => turns(count(fields, "step")?),
        32 => Ok(Refusal::WorkLimit),
        37 => counter(number(fields, "counter")?),
        38 => floor(number(fields, "floor")?),
        _ => Err(NO_REFUSAL),
    }
}

fn kept(kept: u64) -> Result<Refusal, Fault> {
    Ok(Refusal::VersionDiffers { kept })
}

fn turns(step: u32) -> Result<Refusal, Fault> {
    Ok(Refusal::StepTurns { step })
}

fn counter(counter: u64) -> Result<Refusal, Fault> {
    Ok(Refusal::BadToken { counter })
}

fn floor(floor: u64) -> Result<Refusal, Fault> {
    Ok(Refusal::TokenExpired { floor })
}

fn bad_definition(alloc: Global, fields: &Json) -> Result<Refusal, Fault> {
    let kind = text(alloc, fields, "kind")?;
    let place = text(alloc, fields, "place")?;
    Ok(Refusal::BadDefinition { kind, place })
}

fn bad_store(alloc: Global, fields: &Json) -> Result<Refusal, Fault> {
    let Ok(sheet) = u8::try_from(count(fields, "sheet")?) else {
        return Err(Fault::Wrong("no sheet"));
    };
    let key = text(alloc, fields, "key")?;
    Ok(Refusal::BadStore { key, sheet })
}

fn denied(alloc: Global, fields: &Json) -> Result<Refusal, Fault> {
    let privilege = text(alloc, fields, "privilege")?;
    let why = text(alloc, fields, "why")?;
    Ok(Refusal::Denied { privilege, why })
}

fn not_found(alloc: Global, fields: &Json) -> Result<Refusal, Fault> {
    let id = id(fields, "id")?;
    let table = text(alloc, fields, "table")?;
    Ok(Refusal::NotFound { id, table })
}

fn step_failed(alloc: Global, fields: &Json) -> Result<Refusal, Fault> {
    let code = signed(fields, "code")?;
    let step = count(fields, "step")?;
    let text = text(alloc, fields, "text")?;
    Ok(Refusal::StepFailed { code, step, text })
}

fn bad_query(alloc: Global, fields: &Json) -> Result<Refusal, Fault> {
    let kind = text(alloc, fields, "kind")?;
    let part = text(alloc, fields, "part")?;
    Ok(Refusal::BadQuery { kind, part })
}

fn limit(fields: &Json) -> Result<Refusal, Fault> {
    let what = what(word(fields, "what")?)?;
    Ok(Refusal::Limit { what })
}

fn what(name: &str) -> Result<What, Fault> {
    match name {
        "Row" => Ok(What::Row),
        "Grant" => Ok(What::Grant),
        "Unit" => Ok(What::Unit),
        "User" => Ok(What::User),
        "Team" => Ok(What::Team),
        "Member" => Ok(What::Member),
        "Role" => Ok(What::Role),
        "Version" => Ok(What::Version),
        "Id" => Ok(What::Id),
        _ => Err(Fault::Wrong("no such limit")),
    }
}
