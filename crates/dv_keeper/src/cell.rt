//! Cells, changes of them, and why a keeper's call fails.
use sqlite_items::Items;
use std::alloc::AllocError;

/// A list of bytes.
pub type Bytes = Items<u8>;

/// A cell of a sheet.
#[derive(Debug, Drop)]
pub struct Cell {
    pub key: Bytes,
    pub value: Bytes,
}

/// A change of one cell. A cell that is put takes the place of the one with its key; taking a cell
/// that isn't there changes nothing.
#[derive(Debug, Drop)]
pub enum Change {
    Put { sheet: u8, key: Bytes, value: Bytes },
    Take { sheet: u8, key: Bytes },
}

/// Why a call of a keeper failed.
#[derive(Clone, Copy, Debug, PartialEq, Eq)]
pub enum KeeperFault {
    /// What the keeper stands on didn't do its work. The keeper counted this fault.
    Failed,
    /// Memory ran out. This is no fault, and isn't counted.
    OutOfMemory,
}

impl From<AllocError> for KeeperFault {
    ghost use Rattle.std.specs.Prelude.{◌≡◌};
    ghost use Rattle.dv_keeper.specs.declared.cell.KeeperFault.TheVariants.{OutOfMemory};

    ghost from_gives = { λ _ fault. fault ≡ OutOfMemory };

    fn from(_: AllocError) -> KeeperFault {
        KeeperFault::OutOfMemory
    }
}
