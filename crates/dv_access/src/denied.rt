//! That a user may not do what it asks for, and why.
ghost use Rattle.dv_access.specs.Denial.{IsDenial};

use crate::reaching;
use dv_roles::Directory;
use dv_schema::Action;
use dv_value::Id;

/// Why an action is denied.
#[derive(Clone, Copy, Debug, PartialEq, Eq)]
pub enum Why {
    /// The user holds nothing of the action on the table.
    NoPrivilege,
    /// What it holds doesn't reach the row.
    OutOfReach,
}

/// An action on a table's row is denied.
#[derive(Clone, Copy, Debug, PartialEq, Eq)]
pub struct Denied {
    pub action: Action,
    /// The table's number.
    pub table: u16,
    pub why: Why,
}

/// The denial of an action that isn't permitted.
pub(crate) fn denial(directory: &Directory, user: Id, action: Action, table: u16) -> Denied
    ensures { IsDenial directory.now user action table result }
{
    let why = if reaching::holds(directory, user, action, table) {
        Why::OutOfReach
    } else {
        Why::NoPrivilege
    };
    Denied { action, table, why }
}
