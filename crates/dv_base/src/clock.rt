//! What gives the moments at which requests are served.
ghost use Rattle.std.specs.Prelude.{◌≡◌, ◌↔◌, IsTrue, IfOk, OnErr};
ghost use Rattle.dv_base.specs.Clock.{ClockState, IsInRange, Ticks};
ghost use Rattle.dv_base.specs.Faults.{HasCause};

use crate::faults::Failed;

// 0001-01-01T00:00:00Z.
const FIRST: i64 = -62_135_596_800;

// 9999-12-31T23:59:59Z.
const LAST: i64 = 253_402_300_799;

/// What gives moments: the system's clock, a list in memory.
pub trait Clock {
    /// The moments that the clock still gives, which are `None` where it doesn't tell them, and how often it failed. A
    /// clock that tells its moments goes on telling them, and one that doesn't never begins to. The count rises only
    /// where a call answers [`Failed`], never falls, and stands still at 2^64 - 1.
    ghost state: { Self → ClockState };

    /// The moment that it is now, in seconds since 1970-01-01T00:00:00Z and in the years 0001 to 9999.
    ///
    /// A clock that is outside these years counts a fault and answers [`Failed`]. Two moments of one clock stand in no
    /// order: a clock may be put back.
    fn now(&mut self) -> Result<i64, Failed>
        ensures range { IfOk result (λ now. IsInRange now) }
        ensures ticks { IfOk result (λ now. Ticks (Self.state self.old) now (Self.state self.new)) }
        ensures kept { OnErr result ((Self.state self.new).moments ≡ (Self.state self.old).moments) }
        ensures cause { HasCause (Self.state self.old).faults (Self.state self.new).faults result };
}

/// Whether a clock may give the moment.
pub(crate) fn is_in_range(moment: i64) -> bool
    ensures { IsTrue result ↔ IsInRange moment }
{
    FIRST <= moment && moment <= LAST
}
