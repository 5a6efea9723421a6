//! Whether a row is shared with a user or with a team of it.
ghost use Rattle.std.specs.Prelude.{◌≡◌, ◌↔◌, IsTrue};
ghost use Rattle.dv_store.specs.World.{grant_at};
ghost use Rattle.dv_store.specs.Cursors.{told_of};
ghost use Rattle.dv_access.specs.Rights.{grant_has};
ghost use Rattle.dv_access.specs.Permitted.{IsShared};

use crate::masks;
use dv_roles::Directory;
use dv_schema::Action;
use dv_store::Store;
use dv_value::Id;

/// Whether the grant of a principal on a row has the right to do an action.
fn grant_has(store: &Store, table: u16, id: Id, principal: Id, action: Action) -> bool
    ensures { result
        ≡ grant_has (grant_at store.now.present.grants table id principal) action }
{
    let (direct, inherited) = store.grant(table, id, principal);
    masks::has_right(direct, action) || masks::has_right(inherited, action)
}

/// Whether a row is shared, for an action, with the user or with a team of it. It reads the grants of these
/// principals alone.
pub(crate) fn is_shared(
    directory: &Directory,
    store: &Store,
    user: Id,
    action: Action,
    table: u16,
    id: Id,
) -> bool
    ensures { IsTrue result
        ↔ IsShared directory.now (told_of store.now.present) user action table id }
{
    if grant_has(store, table, id, user, action) {
        return true;
    }
    let mut after = None;
    'teams: while let Some(team) = directory.units().team_after(user, after) {
        if grant_has(store, table, id, team, action) {
            return true;
        }
        after = Some(team);
    }
    false
}
