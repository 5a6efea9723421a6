//! The rights that a user has on a row.
ghost use Rattle.std.specs.Prelude.{◌≡◌, ◌≤◌, IsSome};
ghost use Rattle.dv_store.specs.World.{row_at};
ghost use Rattle.dv_store.specs.Cursors.{told_of};
ghost use Rattle.dv_access.specs.Rights.{right_of};
ghost use Rattle.dv_access.specs.Permitted.{IsRightOf, Permitted, AreRights};

use crate::{checking, masks};
use dv_roles::Directory;
use dv_schema::Action;
use dv_store::Store;
use dv_value::Id;

/// The right to do an action on a row, where the user may do it.
fn right(directory: &Directory, store: &Store, user: Id, action: Action, table: u16, id: Id) -> u32
    ensures part { IsRightOf
        (λ action. Permitted directory.now (told_of store.now.present) user action table id)
        action result }
    ensures bound { result ≤ right_of action }
{
    if checking::may(directory, store, user, action, table, id) {
        masks::right_of(action)
    } else {
        0
    }
}

/// The rights that a user has on a row that is there, as a sum: of the action [`Read`](Action::Read) 1, and so on, as
/// [`right_of`](masks::right_of) tells. The right to create isn't among them. Directory and store are of one
/// definition.
pub fn rights(directory: &Directory, store: &Store, user: Id, table: u16, id: Id) -> u32
    requires { IsSome (row_at store.now.present.rows table id) }
    ensures sum { AreRights directory.now (told_of store.now.present) user table id result }
{
    let read = right(directory, store, user, Action::Read, table, id);
    let write = right(directory, store, user, Action::Write, table, id);
    let append = right(directory, store, user, Action::Append, table, id);
    let append_to = right(directory, store, user, Action::AppendTo, table, id);
    let delete = right(directory, store, user, Action::Delete, table, id);
    let share = right(directory, store, user, Action::Share, table, id);
    let assign = right(directory, store, user, Action::Assign, table, id);
    read + (write + (append + (append_to + (delete + (share + assign)))))
}
