//! Why a change of the directory isn't made.
ghost use Rattle.std.specs.Prelude.{◌≡◌};
ghost use Rattle.dv_units.specs.declared.fault.DirFault.TheVariants.{OutOfMemory};

use dv_refusal::Refusal;
use std::alloc::AllocError;

/// Why a change of the directory isn't made. The directory is then as it was.
#[derive(Debug, Drop)]
pub enum DirFault {
    /// The change breaks a rule: UnknownTable, BadPrincipal, UnknownUnit, UnknownUser, UnknownTeam, UnknownRole,
    /// DirectoryIdTaken, UnitRule, TeamRule, RoleRule, LastAdmin or Limit.
    Refused(Refusal),
    /// There was no memory for the change, or for telling which rule it breaks.
    OutOfMemory,
}

impl From<AllocError> for DirFault {
    ghost from_gives = { λ _ fault. fault ≡ OutOfMemory };

    fn from(_: AllocError) -> DirFault {
        DirFault::OutOfMemory
    }
}
