//! Security roles as the directory keeps them.
use dv_schema::Action;
use sqlite_items::Items;

/// A privilege that a role has, on one table.
#[derive(Clone, Copy, Debug)]
pub struct RoleEntry {
    pub action: Action,
    /// The table's number in the definition.
    pub table: u16,
    /// 0 user, 1 business unit, 2 parent-child, 3 organisation.
    pub depth: u8,
}

/// A security role.
#[derive(Debug, Drop)]
pub struct SecurityRole {
    /// Whether a team's role also counts as its members' own at depth 0.
    pub direct: bool,
    /// Whether it lets manage the directory.
    pub manage: bool,
    /// At most one for each action and table, with the greatest depth, by action and then by table.
    pub entries: Items<RoleEntry>,
}
