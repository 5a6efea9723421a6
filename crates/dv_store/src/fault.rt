//! Why a change of the store isn't made.
ghost use Rattle.std.specs.Prelude.{◌≡◌};
ghost use Rattle.dv_store.specs.declared.fault.StoreFault.TheVariants.{OutOfMemory};

use dv_refusal::What;
use std::alloc::AllocError;

/// Why a change of the store isn't made. The store is then as it was.
#[derive(Debug, Drop)]
pub enum StoreFault {
    /// The change would pass a limit: of rows and removals together, of grants, of versions or of ids.
    Limit(What),
    /// Memory ran out.
    OutOfMemory,
}

impl From<AllocError> for StoreFault {
    ghost from_gives = { λ _ fault. fault ≡ OutOfMemory };

    fn from(_: AllocError) -> StoreFault {
        StoreFault::OutOfMemory
    }
}
