//! Whether a user may do an action on a row.
ghost use Rattle.std.specs.Prelude.{◌≡◌, ◌↔◌, IsOk, IsSome, IsTrue, IfErr};
ghost use Rattle.dv_store.specs.World.{row_at};
ghost use Rattle.dv_store.specs.Cursors.{told_of};
ghost use Rattle.dv_access.specs.Reaches.{Reaches};
ghost use Rattle.dv_access.specs.Permitted.{owner_at, IsAllowedByShare, Permitted};
ghost use Rattle.dv_access.specs.Denial.{IsDenial};

use crate::denied::{Denied, denial};
use crate::{reaching, sharing};
use dv_roles::Directory;
use dv_schema::Action;
use dv_store::{OWNER_PLACE, Store, named_at};
use dv_value::Id;

/// The owner of a row, where users own the rows of its table.
#[tactic(auto, unfolding(crate::specs::Permitted::owner_at))]
fn owner_at(directory: &Directory, store: &Store, table: u16, id: Id) -> Option<Id>
    ensures { result ≡ owner_at directory.now (told_of store.now.present) table id }
{
    if !reaching::is_user_owned(directory, table) {
        return None;
    }
    match store.row(table, id) {
        Some(row) => named_at(row, OWNER_PLACE),
        None => None,
    }
}

/// Whether a share lets a user do an action on a row.
fn is_allowed_by_share(
    directory: &Directory,
    store: &Store,
    user: Id,
    action: Action,
    table: u16,
    id: Id,
) -> bool
    ensures { IsTrue result
        ↔ IsAllowedByShare directory.now (told_of store.now.present) user action table id }
{
    if !reaching::is_user_owned(directory, table) {
        return false;
    }
    if !reaching::holds(directory, user, action, table) {
        return false;
    }
    sharing::is_shared(directory, store, user, action, table, id)
}

/// Whether a user may do an action on a row that is there: by what it holds, or by a share.
pub(crate) fn may(
    directory: &Directory,
    store: &Store,
    user: Id,
    action: Action,
    table: u16,
    id: Id,
) -> bool
    ensures { IsTrue result
        ↔ Permitted directory.now (told_of store.now.present) user action table id }
{
    let owner = owner_at(directory, store, table, id);
    if reaching::reaches(directory, user, action, table, owner) {
        return true;
    }
    is_allowed_by_share(directory, store, user, action, table, id)
}

/// Checks whether a user may do an action on a row that is there. Directory and store are of one definition.
///
/// # Errors
///
/// The user may not: it holds nothing of the action on the table, or what it holds and what is shared with it doesn't
/// reach the row.
pub fn check(
    directory: &Directory,
    store: &Store,
    user: Id,
    action: Action,
    table: u16,
    id: Id,
) -> Result<(), Denied>
    requires { IsSome (row_at store.now.present.rows table id) }
    ensures ok { IsOk result
        ↔ Permitted directory.now (told_of store.now.present) user action table id }
    ensures err { IfErr result (IsDenial directory.now user action table) }
{
    if may(directory, store, user, action, table, id) {
        Ok(())
    } else {
        Err(denial(directory, user, action, table))
    }
}

/// Checks whether a user may do an action on a row that is about to be made for an owner, or for none where the
/// organisation owns the rows of its table. No share can be on it yet.
///
/// # Errors
///
/// As [`check`].
pub fn check_new(
    directory: &Directory,
    user: Id,
    action: Action,
    table: u16,
    owner: Option<Id>,
) -> Result<(), Denied>
    ensures ok { IsOk result ↔ Reaches directory.now user action table owner }
    ensures err { IfErr result (IsDenial directory.now user action table) }
{
    if reaching::reaches(directory, user, action, table, owner) {
        Ok(())
    } else {
        Err(denial(directory, user, action, table))
    }
}
