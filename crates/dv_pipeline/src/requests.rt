//! Which requests are served, and what refuses one before its own checks.
ghost use Rattle.std.specs.Prelude.{◌≡◌};
ghost use Rattle.dv_pipeline.specs.Requests.{is_plain, is_plain_query, is_built, is_apart, caller_fault, place_fault, start_fault};

use dv_query::{PageStart, Part, Query};
use dv_refusal::Refusal;
use dv_request::Request;
use dv_roles::Directory;
use dv_value::Id;

/// The most rows that an answer has, as long as it isn't cut into pages.
pub(crate) const MOST_SHOWN: usize = 5_000;

/// Whether a part is the first page of the largest size, without a total.
#[tactic(auto, unfolding(crate::specs::Requests::is_plain))]
fn is_plain(part: &Part) -> bool
    ensures { result ≡ is_plain part.now }
{
    match part {
        Part::Page {
            size,
            from: PageStart::Number(number),
            total,
        } => *size == 5_000 && *number == 1 && !*total,
        Part::Page {
            from: PageStart::Cookie(_),
            ..
        } => false,
        Part::Top(_) => false,
    }
}

/// Whether a query asks for columns of all rows that the caller may read, and for nothing else.
#[tactic(auto, unfolding(crate::specs::Requests::is_plain_query))]
fn is_plain_query(query: &Query) -> bool
    ensures { result ≡ is_plain_query query.now }
{
    query.filter.is_none()
        && query.links.as_slice().is_empty()
        && query.orders.as_slice().is_empty()
        && is_plain(&query.part)
}

/// Whether a request is served by [`execute`](crate::execute): the messages on one row, a query for columns of all rows
/// that the caller may read, and the question who the caller is.
#[tactic(auto, unfolding(crate::specs::Requests::is_built))]
pub fn is_built(request: &Request) -> bool
    ensures { result ≡ is_built request.now }
{
    match request {
        Request::Create { .. }
        | Request::Retrieve { .. }
        | Request::Update { .. }
        | Request::Delete { .. }
        | Request::Assign { .. }
        | Request::Grant { .. }
        | Request::Modify { .. }
        | Request::Revoke { .. }
        | Request::Access { .. }
        | Request::Shares { .. }
        | Request::WhoAmI => true,
        Request::Query { query } => is_plain_query(query.get()),
        _ => false,
    }
}

/// Whether a request may not be part of another: batches, and messages of the directory.
#[tactic(auto, unfolding(crate::specs::Requests::is_apart))]
fn is_apart(request: &Request) -> bool
    ensures { result ≡ is_apart request.now }
{
    match request {
        Request::Multiple { .. }
        | Request::Transaction { .. }
        | Request::RollupJob
        | Request::Trim { .. }
        | Request::AddUnit { .. }
        | Request::MoveUnit { .. }
        | Request::AddUser { .. }
        | Request::MoveUser { .. }
        | Request::SetEnabled { .. }
        | Request::AddTeam { .. }
        | Request::AddMember { .. }
        | Request::RemoveMember { .. }
        | Request::AddRole { .. }
        | Request::SetPrivileges { .. }
        | Request::GiveRole { .. }
        | Request::TakeRole { .. } => true,
        _ => false,
    }
}

/// Why a caller may send no request: no user has its id, or the user is disabled.
#[tactic(auto, unfolding(crate::specs::Requests::caller_fault))]
pub fn caller_fault(directory: &Directory, user: Id) -> Option<Refusal>
    ensures { result ≡ caller_fault directory.now user }
{
    match directory.units().enabled(user) {
        None => Some(Refusal::UnknownCaller),
        Some(true) => None,
        Some(false) => Some(Refusal::CallerDisabled),
    }
}

/// Why a request isn't served here.
#[tactic(auto, unfolding(crate::specs::Requests::place_fault))]
fn place_fault(request: &Request) -> Option<Refusal>
    ensures { result ≡ place_fault request.now }
{
    if is_apart(request) {
        Some(Refusal::NotNested)
    } else if is_built(request) {
        None
    } else {
        Some(Refusal::NotBuilt)
    }
}

/// What refuses a request before its own checks.
pub(crate) fn start_fault(directory: &Directory, user: Id, request: &Request) -> Option<Refusal>
    ensures { result ≡ start_fault directory.now user request.now }
{
    match caller_fault(directory, user) {
        Some(refusal) => Some(refusal),
        None => place_fault(request),
    }
}
