//! A clock of std as a clock.
ghost use Rattle.std.specs.Prelude.{◌≡◌, None, IfOk, OnErr};
ghost use Rattle.dv_base.specs.Clock.{IsInRange};
ghost use Rattle.dv_base.specs.Faults.{raised, HasCause};

use crate::clock::{Clock, is_in_range};
use crate::faults::{Failed, FaultCount};
use std::marker::Model;
use std::time::Clock as StdClock;

/// A clock of std, as the system's. Each error of it is a fault, and so is a time after the year 9999. It gives no time
/// before 1970.
///
/// As a [`Clock`] it tells nothing of the moments that it gives: that the system's clock is right is trusted, not
/// proved.
#[derive(Drop)]
pub struct SystemClock<R: StdClock> {
    clock: R,
    faults: FaultCount,
}

impl<R: StdClock> Model for SystemClock<R> {
    ghost use Rattle.dv_base.specs.StdEnds.{ClockOver};

    ghost Value = { ClockOver R };

    ghost view = { λ s. record { clock = s.clock; faults = s.faults } };
}

impl<R: StdClock> SystemClock<R> {
    /// A clock that asks `clock`, and has not failed yet.
    pub fn new(clock: R) -> Self
        ensures clock { result.clock ≡ clock }
        ensures faults { result.faults ≡ 0 }
    {
        SystemClock {
            clock,
            faults: FaultCount::new(),
        }
    }
}

impl<R: StdClock> Clock for SystemClock<R> {
    ghost state = { λ s. record { moments = None; faults = s.faults } };

    fn now(&mut self) -> Result<i64, Failed>
        ensures range { IfOk result (λ now. IsInRange now) }
        ensures cause { HasCause self.old.faults self.new.faults result }
        ensures fault { OnErr result (self.new.faults ≡ raised self.old.faults) }
    {
        let now = match self.clock.since_1970() {
            Ok(since_1970) => i64::try_from(since_1970.as_secs()).unwrap_or(i64::MAX),
            Err(_) => i64::MAX,
        };
        if is_in_range(now) {
            Ok(now)
        } else {
            Err(self.faults.raise())
        }
    }
}
