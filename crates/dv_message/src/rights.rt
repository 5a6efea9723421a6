//! Whether the user may do an action on a row, and who can be an owner or be given rights.
ghost use Rattle.std.specs.Prelude.{◌≡◌, false, IsSome};
ghost use Rattle.dv_units.specs.Chart.{is_user};
ghost use Rattle.dv_message.specs.Checked.{Answers};
ghost use Rattle.dv_message.specs.Scenes.{targeted_in};
ghost use Rattle.dv_message.specs.Rights.{is_owner_team, is_owner, is_principal, MayDo, RightSays};
ghost use Rattle.dv_message.specs.Rows.{row_in};

use crate::refusing::denied;
use crate::rows::Target;
use crate::stop::Stop;
use dv_access::check;
use dv_schema::Action;
use dv_store::Store;
use dv_units::Units;
use dv_value::Id;
use std::alloc::Global;

/// Whether an id that is no user's is that of an owner team.
#[tactic(auto, using(crate::proofs::Owning::unit_of_is))]
fn is_owner_team(units: &Units, id: Id) -> bool
    requires { is_user units.now id ≡ false }
    ensures { result ≡ is_owner_team units.now id }
{
    match units.access(id) {
        Some(access) => !access,
        None => units.unit_of(id).is_some(),
    }
}

/// Whether an id is that of a user or of an owner team, so that it can own rows.
pub fn is_owner(units: &Units, id: Id) -> bool
    ensures { result ≡ is_owner units.now id }
{
    if units.enabled(id).is_some() {
        return true;
    }
    is_owner_team(units, id)
}

/// Whether an id is that of a user or of a team, so that it can be given rights on a row. The default team of a business
/// unit has the unit's id.
pub fn is_principal(units: &Units, id: Id) -> bool
    ensures { result ≡ is_principal units.now id }
{
    units.unit_of(id).is_some()
}

/// Checks that the user may do an action on a row that is there.
fn check_there(
    alloc: Global,
    store: &Store,
    target: &Target<'_>,
    action: Action,
) -> Result<(), Stop>
    requires { IsSome (row_in (targeted_in store.now.present target.now)) }
    ensures { Answers (MayDo (targeted_in store.now.present target.now) action) result }
{
    let scene = target.scene;
    match check(
        scene.directory,
        store,
        scene.user,
        action,
        target.number,
        target.id,
    ) {
        Ok(()) => Ok(()),
        Err(denial) => Err(Stop::Refused(denied(alloc, target.table, denial)?)),
    }
}

/// Checks that the user may do an action on the row. Where the row isn't there, nothing is checked.
#[tactic(auto, unfolding(crate::specs::Rights::RightSays))]
pub fn check_right(
    alloc: Global,
    store: &Store,
    target: &Target<'_>,
    action: Action,
) -> Result<(), Stop>
    ensures { Answers (RightSays (targeted_in store.now.present target.now) action) result }
{
    match store.row(target.number, target.id) {
        Some(_) => check_there(alloc, store, target, action),
        None => Ok(()),
    }
}
