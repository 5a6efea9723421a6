//! What a cell stands for.
use dv_keeper::Bytes;
use dv_roles::RoleEntry;
use dv_store::{DirtyKey, GrantKey, Numbers, Row, RowKey};
use dv_value::Id;
use sqlite_items::Items;

/// What a cell stands for: one variant for each sheet, with what its key and its value say.
#[derive(Debug, Drop)]
pub enum Item {
    /// The version counter, the id counter, and the floor below which removals are forgotten.
    Header {
        numbers: Numbers,
    },
    /// The line with the table definition.
    Line {
        bytes: Bytes,
    },
    /// A business unit. The root is its own parent.
    Unit {
        id: Id,
        parent: Id,
    },
    User {
        id: Id,
        unit: Id,
        enabled: bool,
    },
    /// An owner team, or an access team. Default teams have no cells.
    Team {
        id: Id,
        unit: Id,
        access: bool,
    },
    Member {
        team: Id,
        user: Id,
    },
    /// A security role, but not the nil one, which has no cell.
    Role {
        id: Id,
        /// Whether a team's role also counts as its members' own at depth 0.
        direct: bool,
        /// Whether it lets manage the directory.
        manage: bool,
        /// By action and then by table, at most one for each of both.
        entries: Items<RoleEntry>,
    },
    /// A role that a user or a team has.
    Gift {
        principal: Id,
        role: Id,
    },
    Row {
        key: RowKey,
        row: Row,
    },
    Grant {
        key: GrantKey,
        direct: u32,
        inherited: u32,
    },
    /// What a removed row left: the version at which it was removed.
    Removal {
        key: RowKey,
        version: u64,
    },
    /// A rollup that has to be calculated.
    Dirty {
        key: DirtyKey,
    },
}
