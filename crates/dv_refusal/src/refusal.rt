//! The refusals, each with its number, its HTTP status and its JSON.
ghost use Rattle.std.specs.Prelude.{◌≡◌, IfOk};
ghost use Rattle.serde_json.specs.View.{view, members_view};
ghost use Rattle.dv_refusal.specs.Refusals.{refusal_members, refusal_data, number_of, http_status_of};

use crate::what::What;
use dv_value::{Id, Text, add_member};
use serde_json::{Map, Value as Json};
use std::alloc::{AllocError, Global};
use std::fmt::{self, Debug, Formatter, Write};

/// Why a request, a definition or a store isn't served. Each has a number, and its members say what it is about.
#[derive(Drop)]
pub enum Refusal {
    /// The definition isn't accepted: the kind of its first fault, and the fault's place.
    BadDefinition { kind: Text, place: Text },
    /// The store isn't one of this service: the sheet of the first cell that is wrong, and the cell's key in
    /// hexadecimal.
    BadStore { key: Text, sheet: u8 },
    /// The line isn't a request: the place of its first fault, empty where it isn't a JSON object at all.
    Malformed { place: Text },
    /// No user has the caller's id.
    UnknownCaller,
    /// The caller is a user that may send no requests.
    CallerDisabled,
    /// No table has this name.
    UnknownTable { table: Text },
    /// No column of the table has this name.
    UnknownColumn { column: Text },
    /// The value isn't of the column's kind.
    WrongType { column: Text },
    /// The column can't be set by a request.
    NotWritable { column: Text },
    /// The value is outside the column's limits, or `row`, `rights` or `count` is.
    OutOfRange { column: Text },
    /// A required column would be empty.
    RequiredMissing { column: Text },
    /// The caller lacks the privilege, or has it and doesn't reach the row.
    Denied { privilege: Text, why: Text },
    /// The table has no row of this id.
    NotFound { id: Id, table: Text },
    /// A row of this table has the id already.
    IdTaken,
    /// The row isn't at the version that the request names: the version that it has.
    VersionDiffers { kept: u64 },
    /// A chosen id is below 2^64, where the service makes ids of its own.
    ReservedId,
    /// A row that isn't deleted with the others still refers to one of them by this relationship.
    Restricted { relationship: Text },
    /// A row would stand above itself by parental relationships.
    Circular { relationship: Text },
    /// Rows of an organisation-owned table have no owner and no shares.
    NotShareable { table: Text },
    /// The principal is no user and no team, or an access team where an owner is asked for.
    BadPrincipal,
    /// A step failed: its own code and text, and the place of its registration.
    StepFailed { code: i32, step: u32, text: Text },
    /// A nested request would run below the last depth.
    DepthExceeded,
    /// A step took more turns than a stage gives it: the place of its registration.
    StepTurns { step: u32 },
    /// The request took more units of work than one request has.
    WorkLimit,
    /// The query isn't well formed: the kind of its first fault, and the part that has it.
    BadQuery { kind: Text, part: Text },
    /// The query has more joined rows than an answer may have.
    AnswerLimit,
    /// The cookie isn't one that this query's pages give.
    BadCookie,
    /// The table doesn't keep its changes.
    TrackingOff,
    /// The token is above the version counter.
    BadToken { counter: u64 },
    /// The token is below the floor, under which removals are forgotten.
    TokenExpired { floor: u64 },
    /// The batch has too many items.
    BatchLimit,
    /// A batch may not stand at this place in a batch.
    NotNested,
    /// No business unit has the id.
    UnknownUnit,
    /// No user has the id.
    UnknownUser,
    /// No team has the id.
    UnknownTeam,
    /// No security role has the id.
    UnknownRole,
    /// A unit, a user, a team or a role has the id already, or it is nil.
    DirectoryIdTaken,
    /// The rule on business units that the request breaks: `cycle` or `root`.
    UnitRule { why: Text },
    /// The rule on teams that the request breaks: `default` or `access`.
    TeamRule { why: Text },
    /// The rule on security roles that the request breaks: `admin` or `entry`.
    RoleRule { why: Text },
    /// No enabled user would be an administrator.
    LastAdmin,
    /// The organisation would hold more of this than it may.
    Limit { what: What },
    /// The store gave a fault, and the request changed nothing.
    StoreFault,
    /// The clock gave a fault, and the request changed nothing.
    ClockFault,
    /// There was no memory left for the request, which changed nothing.
    OutOfMemory,
    /// The request asks for a part of the service that isn't built yet.
    NotBuilt,
}

/// Shows the number alone.
impl Debug for Refusal {
    fn fmt<W: Write>(&self, f: &mut Formatter<W>) -> fmt::Result {
        write!(f, "Refusal {}", self.number())
    }
}

impl Refusal {
    /// The number that callers know the refusal by.
    #[tactic(auto, unfolding(crate::specs::Refusals::number_of))]
    pub fn number(&self) -> u64
        ensures { result ≡ number_of self.now }
    {
        match self {
            Refusal::BadDefinition { .. } => 1,
            Refusal::BadStore { .. } => 2,
            Refusal::Malformed { .. } => 10,
            Refusal::UnknownCaller => 11,
            Refusal::CallerDisabled => 12,
            Refusal::UnknownTable { .. } => 13,
            Refusal::UnknownColumn { .. } => 14,
            Refusal::WrongType { .. } => 15,
            Refusal::NotWritable { .. } => 16,
            Refusal::OutOfRange { .. } => 17,
            Refusal::RequiredMissing { .. } => 18,
            Refusal::Denied { .. } => 20,
            Refusal::NotFound { .. } => 21,
            Refusal::IdTaken => 22,
            Refusal::VersionDiffers { .. } => 23,
            Refusal::ReservedId => 24,
            Refusal::Restricted { .. } => 25,
            Refusal::Circular { .. } => 26,
            Refusal::NotShareable { .. } => 27,
            Refusal::BadPrincipal => 28,
            Refusal::StepFailed { .. } => 29,
            Refusal::DepthExceeded => 30,
            Refusal::StepTurns { .. } => 31,
            Refusal::WorkLimit => 32,
            Refusal::BadQuery { .. } => 33,
            Refusal::AnswerLimit => 34,
            Refusal::BadCookie => 35,
            Refusal::TrackingOff => 36,
            Refusal::BadToken { .. } => 37,
            Refusal::TokenExpired { .. } => 38,
            Refusal::BatchLimit => 39,
            Refusal::NotNested => 40,
            Refusal::UnknownUnit => 41,
            Refusal::UnknownUser => 42,
            Refusal::UnknownTeam => 43,
            Refusal::UnknownRole => 44,
            Refusal::DirectoryIdTaken => 45,
            Refusal::UnitRule { .. } => 46,
            Refusal::TeamRule { .. } => 47,
            Refusal::RoleRule { .. } => 48,
            Refusal::LastAdmin => 49,
            Refusal::Limit { .. } => 50,
            Refusal::StoreFault => 60,
            Refusal::ClockFault => 61,
            Refusal::OutOfMemory => 62,
            Refusal::NotBuilt => 90,
        }
    }

    /// The status of the HTTP answer that carries the refusal (RFC 9110). None for the two that end the program
    /// before it answers anyone.
    #[tactic(auto, unfolding(crate::specs::Refusals::http_status_of))]
    pub fn http_status(&self) -> Option<u16>
        ensures { result ≡ http_status_of self.now }
    {
        match self {
            Refusal::BadDefinition { .. } | Refusal::BadStore { .. } => None,
            Refusal::Malformed { .. } => Some(400),
            Refusal::UnknownCaller | Refusal::CallerDisabled | Refusal::Denied { .. } => Some(403),
            Refusal::UnknownTable { .. } | Refusal::NotFound { .. } => Some(404),
            Refusal::IdTaken | Refusal::Restricted { .. } => Some(409),
            Refusal::VersionDiffers { .. } => Some(412),
            Refusal::UnknownColumn { .. }
            | Refusal::WrongType { .. }
            | Refusal::NotWritable { .. }
            | Refusal::OutOfRange { .. }
            | Refusal::RequiredMissing { .. }
            | Refusal::ReservedId
            | Refusal::Circular { .. }
            | Refusal::NotShareable { .. }
            | Refusal::BadPrincipal
            | Refusal::StepFailed { .. }
            | Refusal::DepthExceeded
            | Refusal::StepTurns { .. }
            | Refusal::WorkLimit
            | Refusal::BadQuery { .. }
            | Refusal::AnswerLimit
            | Refusal::BadCookie
            | Refusal::TrackingOff
            | Refusal::BadToken { .. }
            | Refusal::TokenExpired { .. }
            | Refusal::BatchLimit
            | Refusal::NotNested
            | Refusal::UnknownUnit
            | Refusal::UnknownUser
            | Refusal::UnknownTeam
            | Refusal::UnknownRole
            | Refusal::DirectoryIdTaken
            | Refusal::UnitRule { .. }
            | Refusal::TeamRule { .. }
            | Refusal::RoleRule { .. }
            | Refusal::LastAdmin
            | Refusal::Limit { .. } => Some(422),
            Refusal::NotBuilt => Some(501),
            Refusal::StoreFault | Refusal::ClockFault => Some(503),
            Refusal::OutOfMemory => Some(507),
        }
    }

    /// The refusal as JSON: its number at `nr`, and its members.
    pub fn to_json(&self, alloc: Global) -> Result<Json, AllocError>
        ensures { IfOk result (λ json. view json ≡ refusal_data self.now) }
    {
        Ok(Json::Object(self.members(alloc)?))
    }

    /// The members of the refusal's JSON object, to which a further one may be added.
    #[tactic(auto, unfolding(crate::specs::Refusals::refusal_members))]
    pub fn members(&self, alloc: Global) -> Result<Map<String, Json>, AllocError>
        ensures { IfOk result (λ members. members_view members.entries ≡ refusal_members self.now) }
    {
        let mut members = self.details(alloc)?;
        add_member(alloc, &mut members, "nr", Json::from(self.number()))?;
        Ok(members)
    }
}
