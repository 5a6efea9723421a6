//! What keeps cells, as the service sees it.
ghost use Rattle.std.specs.Prelude.{IsTrue, IfOk, IfSome, OnOk, OnErr};
ghost use Rattle.std.specs.Option.{option_copied};
ghost use Rattle.dv_keeper.specs.Cells.{Cells, IsNext, all_changed, same};
ghost use Rattle.dv_keeper.specs.Crash.{AddsNone, AddsOne, LeavesOnly};
ghost use Rattle.dv_keeper.specs.Faults.{HasCause};
ghost use Rattle.dv_keeper.specs.Keepers.{Becomes, IsKnown, KeeperState, Opens};

use crate::cell::{Cell, Change, KeeperFault};
use std::alloc::Global;

/// What keeps cells: a database, a map in memory.
pub trait Keeper {
    /// Whether the keeper is open and at which path, the cells that it holds, which are `None`
    /// where it doesn't tell them, and how often it failed. The count rises only where a call
    /// answers [`KeeperFault::Failed`], never falls, and stands still at 2^64 - 1.
    ghost state: { Self → KeeperState };

    /// The cells that a crash may leave now. Clauses only limit what it has more than before, so
    /// what it says before a keeper is open or tells its cells limits nothing.
    ghost leaves: { Self → Cells → Type 0 };

    /// Opens the keeper at a path, or without one in memory.
    ///
    /// An open keeper may be opened again: that changes nothing but the path.
    fn open(&mut self, alloc: Global, path: Option<&str>) -> Result<(), KeeperFault>
        ensures ok { OnOk result
            (Opens (option_copied path.entry) (Self.state self.old) (Self.state self.new)) }
        ensures err { OnErr result (Becomes same (Self.state self.old) (Self.state self.new)) }
        ensures crash { IsKnown (Self.state self.old)
            → AddsNone (Self.leaves self.old) (Self.leaves self.new) }
        ensures cause { HasCause (Self.state self.old).faults (Self.state self.new).faults result };

    /// The cell of a sheet whose key is the least one greater than `key` in byte order, or the
    /// first cell of the sheet for `None`. It answers `None` where there is no such cell.
    fn next_after(
        &mut self,
        alloc: Global,
        sheet: u8,
        key: Option<&[u8]>,
    ) -> Result<Option<Cell>, KeeperFault>
        requires { IsTrue (Self.state self.old).is_open }
        ensures next { IfOk result (λ cell. IfSome (Self.state self.new).told
            (λ cells. IsNext cells sheet (option_copied key.entry) cell)) }
        ensures kept { Becomes same (Self.state self.old) (Self.state self.new) }
        ensures crash { AddsNone (Self.leaves self.old) (Self.leaves self.new) }
        ensures cause { HasCause (Self.state self.old).faults (Self.state self.new).faults result };

    /// Makes all changes in their order, or none of them.
    ///
    /// A crash during the call leaves the cells as before it or with all the changes, and so does
    /// one after a call that failed. A crash after a call that succeeded leaves them with the
    /// changes.
    fn apply(&mut self, alloc: Global, changes: &[Change]) -> Result<(), KeeperFault>
        requires { IsTrue (Self.state self.old).is_open }
        ensures ok { OnOk result
            (Becomes (all_changed changes.now) (Self.state self.old) (Self.state self.new)) }
        ensures err { OnErr result (Becomes same (Self.state self.old) (Self.state self.new)) }
        ensures crash { AddsOne (all_changed changes.now) (Self.state self.old).told
            (Self.leaves self.old) (Self.leaves self.new) }
        ensures settled { OnOk result
            (LeavesOnly (Self.state self.new).told (Self.leaves self.new)) }
        ensures cause { HasCause (Self.state self.old).faults (Self.state self.new).faults result };
}
