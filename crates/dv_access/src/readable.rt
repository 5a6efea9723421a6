//! The rows of a table that a user may read.
ghost use Rattle.std.specs.Prelude.{◌≡◌, IsTrue, IfOk, OnOk};
ghost use Rattle.dv_access.specs.Permitted.{AreOnRows};
ghost use Rattle.dv_access.specs.View.{is_among, AreExactly, view_of};
ghost use Rattle.dv_access.specs.Gathered.{Gathers, IsReachedRow, IsRowOfOther, IsRowOfPrincipal, IsOwnRow, IsRowInUnits};

use crate::{chart, gathering, principals, reaching};
use dv_roles::Directory;
use dv_schema::Action;
use dv_store::Cursors;
use dv_value::Id;
use std::alloc::{AllocError, Global};

/// Gathers the rows of an owner, where what the user holds reaches them.
fn gather_of_owner<C: Cursors>(
    directory: &Directory,
    cursors: &mut C,
    user: Id,
    table: u16,
    owner: Id,
    ids: &mut Vec<Id>,
) -> Result<(), AllocError>
    ensures gathers { OnOk result (Gathers
        (IsReachedRow directory.now (C.told cursors.old) user table owner)
        ids.old.items ids.new.items) }
    ensures told { C.told cursors.new ≡ C.told cursors.old }
{
    if reaching::reaches(directory, user, Action::Read, table, Some(owner)) {
        gathering::gather_owned(cursors, table, owner, ids)?;
    }
    Ok(())
}

/// The same of an owner as whom the user doesn't act. The rows of those as whom it acts are gathered once.
fn gather_of_other<C: Cursors>(
    directory: &Directory,
    cursors: &mut C,
    user: Id,
    table: u16,
    owner: Id,
    ids: &mut Vec<Id>,
) -> Result<(), AllocError>
    ensures gathers { OnOk result (Gathers
        (IsRowOfOther directory.now (C.told cursors.old) user table owner)
        ids.old.items ids.new.items) }
    ensures told { C.told cursors.new ≡ C.told cursors.old }
{
    if chart::acts_as(directory.units(), user, owner) {
        return Ok(());
    }
    gather_of_owner(directory, cursors, user, table, owner, ids)
}

/// Gathers what a principal that the user acts as brings: the rows that it owns, and those that are shared with it.
fn gather_of_principal<C: Cursors>(
    directory: &Directory,
    cursors: &mut C,
    user: Id,
    table: u16,
    principal: Id,
    ids: &mut Vec<Id>,
) -> Result<(), AllocError>
    ensures gathers { OnOk result (Gathers
        (IsRowOfPrincipal directory.now (C.told cursors.old) user table principal)
        ids.old.items ids.new.items) }
    ensures told { C.told cursors.new ≡ C.told cursors.old }
{
    gather_of_owner(directory, cursors, user, table, principal, ids)?;
    gathering::gather_shared(cursors, table, principal, ids)
}

/// Gathers what the user itself and its teams bring.
fn gather_own<C: Cursors>(
    directory: &Directory,
    cursors: &mut C,
    user: Id,
    table: u16,
    ids: &mut Vec<Id>,
) -> Result<(), AllocError>
    ensures gathers { OnOk result (Gathers
        (IsOwnRow directory.now (C.told cursors.old) user table) ids.old.items ids.new.items) }
    ensures told { C.told cursors.new ≡ C.told cursors.old }
{
    gather_of_principal(directory, cursors, user, table, user, ids)?;
    let mut after = None;
    'teams: while let Some(team) = directory.units().team_after(user, after) {
        gather_of_principal(directory, cursors, user, table, team, ids)?;
        after = Some(team);
    }
    Ok(())
}

/// Gathers the rows of each other owner that is reached, where the user holds something over business units. Else no
/// owner but the user and its teams is.
fn gather_in_units<C: Cursors>(
    directory: &Directory,
    cursors: &mut C,
    user: Id,
    table: u16,
    ids: &mut Vec<Id>,
) -> Result<(), AllocError>
    ensures gathers { OnOk result (Gathers
        (IsRowInUnits directory.now (C.told cursors.old) user table) ids.old.items ids.new.items) }
    ensures told { C.told cursors.new ≡ C.told cursors.old }
{
    if !reaching::holds_in_units(directory, user, Action::Read, table) {
        return Ok(());
    }
    let mut after = None;
    'owners: while let Some(owner) = principals::principal_after(directory.units(), after) {
        gather_of_other(directory, cursors, user, table, owner, ids)?;
        after = Some(owner);
    }
    Ok(())
}

/// Gathers the rows that a user may read, some of them perhaps several times.
fn gather<C: Cursors>(
    directory: &Directory,
    cursors: &mut C,
    user: Id,
    table: u16,
    ids: &mut Vec<Id>,
) -> Result<(), AllocError>
    requires { AreOnRows (C.told cursors.old) }
    ensures gathers { OnOk result (Gathers
        ((view_of directory.now (C.told cursors.old) user).ReadsRow table)
        ids.old.items ids.new.items) }
    ensures told { C.told cursors.new ≡ C.told cursors.old }
{
    if !reaching::holds(directory, user, Action::Read, table) {
        return Ok(());
    }
    if reaching::reaches(directory, user, Action::Read, table, None) {
        return gathering::gather_rows(cursors, table, ids);
    }
    if !reaching::is_user_owned(directory, table) {
        return Ok(());
    }
    gather_own(directory, cursors, user, table, ids)?;
    gather_in_units(directory, cursors, user, table, ids)
}

/// Sorts ids and drops those that stand there before.
fn sort(ids: &mut Vec<Id>)
    ensures { AreExactly (λ id. IsTrue (is_among ids.old.items id)) ids.new.items }
{
    ids.sort_unstable();
    ids.dedup();
}

/// The ids of the rows of a table that a user may read, ascending. Each grant that the cursors tell stands on a row
/// that they tell.
///
/// Where the user holds nothing of reading on the table nothing is asked of the cursors; where it holds it for the
/// whole organisation they are asked for the rows of the table; else for those of each owner that is reached, and
/// for those that are shared with the user and with its teams.
///
/// # Errors
///
/// Memory ran out.
pub fn permitted<C: Cursors>(
    alloc: Global,
    directory: &Directory,
    cursors: &mut C,
    user: Id,
    table: u16,
) -> Result<Vec<Id>, AllocError>
    requires { AreOnRows (C.told cursors.old) }
    ensures readable { IfOk result (λ ids. AreExactly
        ((view_of directory.now (C.told cursors.old) user).ReadsRow table) ids.items) }
    ensures told { C.told cursors.new ≡ C.told cursors.old }
{
    let mut ids = Vec::new(alloc);
    gather(directory, cursors, user, table, &mut ids)?;
    sort(&mut ids);
    Ok(ids)
}
