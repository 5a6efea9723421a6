//! What a caller is told of itself.
ghost use Rattle.std.specs.Prelude.{◌≡◌, IfOk, Some, None};
ghost use Rattle.dv_units.specs.Membership.{unit_of};
ghost use Rattle.dv_pipeline.specs.Run.{AreTeams, TellsCaller};

use dv_request::Reply;
use dv_roles::Directory;
use dv_units::Units;
use dv_value::Id;
use sqlite_items::Items;
use std::alloc::{AllocError, Global};

/// The teams of a user, in ascending order.
fn teams_of(alloc: Global, units: &Units, user: Id) -> Result<Items<Id>, AllocError>
    ensures { IfOk result (AreTeams units.now user) }
{
    let mut teams = Items::new(alloc);
    let mut after = None;
    'teams: while let Some(team) = units.team_after(user, after) {
        teams.push(team)?;
        after = Some(team);
    }
    Ok(teams)
}

/// The user, its business unit and its teams. The user is there.
pub(crate) fn tell_caller(
    alloc: Global,
    directory: &Directory,
    user: Id,
    unit: Id,
) -> Result<Reply, AllocError>
    requires { unit_of directory.now.chart user ≡ Some unit }
    ensures { IfOk result (TellsCaller directory.now user) }
{
    let teams = teams_of(alloc, directory.units(), user)?;
    Ok(Reply::Caller { user, unit, teams })
}
