//! Which team of the opening directory is refused, alone or for lack of room.
ghost use Rattle.std.specs.Prelude.{◌≡◌, IfOk};
ghost use Rattle.dv_opening.specs.Opening.{team_alone_refused, member_count, refused_team};
ghost use Rattle.dv_opening.specs.Seats.{AreSeatsOf};

use crate::ids::places;
use crate::limits::MEMBERS;
use crate::seats::{Made, Seats};
use dv_schema::{Opening, OpeningTeam, Place};
use std::alloc::{AllocError, Global};

#[tactic(auto, unfolding(crate::specs::Opening::team_alone_refused, crate::specs::Opening::gift_refused, crate::specs::Opening::member_refused, crate::specs::Directory::giving_role, crate::specs::Directory::adding_member))]
fn team_alone_refused(opening: &Opening, seats: &Seats, k: usize, team: &OpeningTeam) -> bool
    requires { AreSeatsOf opening.now seats.now }
    ensures { result ≡ team_alone_refused opening.now (k, team.now) }
{
    let before = Made {
        opening,
        seats,
        units: opening.units.len(),
        users: opening.users.len(),
        teams: k,
        roles: opening.roles.len(),
    };
    if before.refuses_team(team.id, team.unit) {
        return true;
    }
    if before.refuses_members(team.access, team.members.as_slice()) {
        return true;
    }
    before.refuses_team_roles(team.access, team.roles.as_slice())
}

// How many different users a team has.
#[tactic(auto, unfolding(crate::specs::Opening::member_count))]
fn member_count(alloc: Global, team: &OpeningTeam) -> Result<usize, AllocError>
    ensures { IfOk result (λ count. count ≡ member_count team.now) }
{
    let members = team.members.as_slice();
    let found = places(alloc, members)?;
    Ok(
        members
            .iter()
            .enumerate()
            .filter(|(j, user)| !found.has_before(*j, **user))
            .count(),
    )
}

/// The first team that is refused, or that has more members with those before it than there is room for.
#[tactic(auto, unfolding(crate::specs::Opening::refused_team))]
pub fn refused_team(
    alloc: Global,
    opening: &Opening,
    seats: &Seats,
) -> Result<Option<Place>, AllocError>
    requires { AreSeatsOf opening.now seats.now }
    ensures { IfOk result (λ place. place ≡ refused_team opening.now) }
{
    let teams = opening.teams.as_slice();
    let mut room = MEMBERS;
    for (k, team) in teams.iter().enumerate() {
        if team_alone_refused(opening, seats, k, team) {
            return Ok(Some(Place::Team(k)));
        }
        let count = member_count(alloc, team)?;
        if room < count {
            return Ok(Some(Place::Team(k)));
        }
        room -= count;
    }
    Ok(None)
}
