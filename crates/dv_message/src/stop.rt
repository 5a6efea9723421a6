//! Why a request isn't served.
ghost use Rattle.std.specs.Prelude.{◌≡◌};
ghost use Rattle.dv_message.specs.declared.stop.Stop.TheVariants.{OutOfMemory};

use dv_refusal::Refusal;
use std::alloc::AllocError;

/// Why a request isn't served. The store is then as it was.
#[derive(Debug, Drop)]
pub enum Stop {
    /// A check failed, or a limit would be passed.
    Refused(Refusal),
    /// Memory ran out.
    OutOfMemory,
}

impl From<AllocError> for Stop {
    ghost from_gives = { λ _ stop. stop ≡ OutOfMemory };

    fn from(_: AllocError) -> Stop {
        Stop::OutOfMemory
    }
}
