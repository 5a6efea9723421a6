//! The messages that change the directory.
ghost use Rattle.std.specs.Prelude.{◌≡◌, Ok, IfOk, OnOk, IfErr};
ghost use Rattle.dv_units.specs.Outcome.{IsFaultOf};
ghost use Rattle.dv_service.specs.Managing.{is_of_chart, is_of_roles, is_of_directory};
ghost use Rattle.dv_service.specs.Managing.{charted, empowered, changed};
ghost use Rattle.dv_service.specs.Managing.{not_managing, management_fault, managed};

use dv_pipeline::caller_fault;
use dv_refusal::Refusal;
use dv_request::Request;
use dv_roles::Directory;
use dv_schema::Definition;
use dv_units::{DirFault, Units};
use dv_value::{Id, Text};
use std::alloc::{AllocError, Global};

// Whether a message changes the organisation chart alone.
#[tactic(auto, unfolding(crate::specs::Managing::is_of_chart))]
fn is_of_chart(request: &Request) -> bool
    ensures { result ≡ is_of_chart request.now }
{
    match request {
        Request::AddUnit { .. }
        | Request::MoveUnit { .. }
        | Request::AddUser { .. }
        | Request::AddTeam { .. }
        | Request::AddMember { .. }
        | Request::RemoveMember { .. } => true,
        _ => false,
    }
}

// Whether a message changes roles, or what roles rest on.
#[tactic(auto, unfolding(crate::specs::Managing::is_of_roles))]
fn is_of_roles(request: &Request) -> bool
    ensures { result ≡ is_of_roles request.now }
{
    match request {
        Request::MoveUser { .. }
        | Request::SetEnabled { .. }
        | Request::AddRole { .. }
        | Request::SetPrivileges { .. }
        | Request::GiveRole { .. }
        | Request::TakeRole { .. } => true,
        _ => false,
    }
}

/// Whether a message changes the directory.
pub fn is_of_directory(request: &Request) -> bool
    ensures { result ≡ is_of_directory request.now }
{
    is_of_chart(request) || is_of_roles(request)
}

// Changes the organisation chart.
#[tactic(auto, unfolding(crate::specs::Managing::charted))]
fn change_chart(units: &mut Units, request: &Request) -> Result<(), DirFault>
    ensures ok { OnOk result (charted units.old request.now ≡ Ok units.new) }
    ensures err { IfErr result (IsFaultOf (charted units.old request.now)) }
{
    match request {
        Request::AddUnit { id, parent } => units.add_unit(*id, *parent),
        Request::MoveUnit { unit, parent } => units.move_unit(*unit, *parent),
        Request::AddUser { id, unit } => units.add_user(*id, *unit),
        Request::AddTeam { id, unit, access } => units.add_team(*id, *unit, *access),
        Request::AddMember { team, user } => units.add_member(*team, *user),
        Request::RemoveMember { team, user } => units.remove_member(*team, *user),
        _ => Err(DirFault::Refused(Refusal::NotBuilt)),
    }
}

// Changes roles, or what roles rest on.
#[tactic(auto, unfolding(crate::specs::Managing::empowered))]
fn change_roles(
    directory: &mut Directory,
    definition: &Definition,
    request: &Request,
) -> Result<(), DirFault>
    ensures ok { OnOk result
        (empowered definition.now directory.old request.now ≡ Ok directory.new) }
    ensures err { IfErr result (IsFaultOf (empowered definition.now directory.old request.now)) }
{
    match request {
        Request::MoveUser { user, unit } => directory.move_user(*user, *unit),
        Request::SetEnabled { user, enabled } => directory.set_enabled(*user, *enabled),
        Request::AddRole { role } => directory.add_role(definition, role),
        Request::SetPrivileges {
            role,
            manage,
            privileges,
        } => directory.set_privileges(definition, *role, *manage, privileges.as_slice()),
        Request::GiveRole { role, to } => directory.give_role(*role, *to),
        Request::TakeRole { role, to } => directory.take_role(*role, *to),
        _ => Err(DirFault::Refused(Refusal::NotBuilt)),
    }
}

// Makes the change that a message asks for. On an `Err` a part of it may be made.
#[tactic(auto, unfolding(crate::specs::Managing::changed))]
fn change(
    directory: &mut Directory,
    definition: &Definition,
    request: &Request,
) -> Result<(), DirFault>
    ensures ok { OnOk result (changed definition.now directory.old request.now ≡ Ok directory.new) }
    ensures err { IfErr result (IsFaultOf (changed definition.now directory.old request.now)) }
{
    if is_of_chart(request) {
        change_chart(directory.units_mut(), request)
    } else {
        change_roles(directory, definition, request)
    }
}

// The refusal of a user who may not manage the directory.
fn not_managing(alloc: Global) -> Result<Refusal, AllocError>
    ensures { IfOk result (λ refusal. refusal ≡ not_managing) }
{
    Ok(Refusal::Denied {
        privilege: Text::from_str(alloc, "prvManageSecurity")?,
        why: Text::from_str(alloc, "NoPrivilege")?,
    })
}

// Why a user may not manage the directory.
#[tactic(auto, unfolding(crate::specs::Managing::management_fault))]
fn management_fault(
    alloc: Global,
    directory: &Directory,
    user: Id,
) -> Result<Option<Refusal>, AllocError>
    ensures { IfOk result (λ fault. fault ≡ management_fault directory.now user) }
{
    if let Some(refusal) = caller_fault(directory, user) {
        return Ok(Some(refusal));
    }
    if directory.manages(user) {
        return Ok(None);
    }
    Ok(Some(not_managing(alloc)?))
}

// A copy of the directory with the change that a message asks for.
fn changed_copy(
    directory: &Directory,
    definition: &Definition,
    request: &Request,
) -> Result<Directory, DirFault>
    ensures ok { IfOk result (λ copy. changed definition.now directory.now request.now ≡ Ok copy) }
    ensures err { IfErr result (IsFaultOf (changed definition.now directory.now request.now)) }
{
    let mut copy = directory.copy()?;
    match change(&mut copy, definition, request) {
        Ok(()) => Ok(copy),
        Err(fault) => Err(fault),
    }
}

/// The directory that a message of a user makes of this one, which stays as it is.
#[tactic(auto, unfolding(crate::specs::Managing::managed))]
pub fn managed(
    alloc: Global,
    directory: &Directory,
    definition: &Definition,
    user: Id,
    request: &Request,
) -> Result<Directory, DirFault>
    ensures ok { IfOk result (λ changed.
        managed definition.now directory.now user request.now ≡ Ok changed) }
    ensures err { IfErr result (IsFaultOf (managed definition.now directory.now user request.now)) }
{
    match management_fault(alloc, directory, user) {
        Ok(None) => changed_copy(directory, definition, request),
        Ok(Some(refusal)) => Err(DirFault::Refused(refusal)),
        Err(_) => Err(DirFault::OutOfMemory),
    }
}
