//! A clock that gives the moments of a list.
ghost use Rattle.std.specs.Prelude.{◌≡◌, ◌-◌, ◌↔◌, ◌⊎◌, Some, IfOk, OnOk, OnErr, IsErr};
ghost use Rattle.dv_base.specs.Clock.{IsInRange, first_of, rest_of};
ghost use Rattle.dv_base.specs.Faults.{raised, HasCause};

use crate::clock::{Clock, is_in_range};
use crate::faults::{Failed, FailingCall, FaultCount};
use std::marker::Model;

/// Moments in memory: each of a list once, in its order, and then one for good.
///
/// The clock fails at the one call that it was made to fail at, and where its next moment isn't in the years 0001 to
/// 9999, and never else. A moment outside these years stays the next one.
#[derive(Drop)]
pub struct ListClock {
    moments: Vec<i64>,
    at: usize,
    last: i64,
    failing_call: FailingCall,
    faults: FaultCount,
}

impl Model for ListClock {
    ghost use Rattle.std.specs.Prelude.{◌≤◌, length, drop};
    ghost use Rattle.dv_base.specs.Memory.{ClockInMemory};

    ghost Value = { ClockInMemory };

    ghost view = { λ s. record {
      moments = record { list = drop s.at s.moments.items; last = s.last };
      failing_call = s.failing_call;
      faults = s.faults;
    } };

    ghost invariant = { λ s. s.at ≤ length s.moments.items };
}

impl ListClock {
    /// A clock that gives these moments, and `last` for good after them. It fails only at a moment outside the years
    /// 0001 to 9999.
    pub fn new(moments: Vec<i64>, last: i64) -> Self
        ensures list { result.moments.list ≡ moments.items }
        ensures last { result.moments.last ≡ last }
        ensures failing_call { result.failing_call ≡ 0 }
        ensures faults { result.faults ≡ 0 }
    {
        ListClock::failing(moments, last, 0)
    }

    /// A clock whose call number `failing_call` of `now` fails too, counted from 1. At 0 none does.
    pub fn failing(moments: Vec<i64>, last: i64, failing_call: u64) -> Self
        ensures list { result.moments.list ≡ moments.items }
        ensures last { result.moments.last ≡ last }
        ensures failing_call { result.failing_call ≡ failing_call }
        ensures faults { result.faults ≡ 0 }
    {
        ListClock {
            moments,
            at: 0,
            last,
            failing_call: FailingCall::new(failing_call),
            faults: FaultCount::new(),
        }
    }

    // The moment that comes next.
    fn first(&self) -> i64
        ensures { result ≡ first_of self.now.moments }
    {
        match self.moments.get(self.at) {
            Some(moment) => *moment,
            None => self.last,
        }
    }

    // Takes the moment that comes next away.
    fn pass(&mut self)
        ensures moments { self.new.moments ≡ rest_of self.old.moments }
        ensures failing_call { self.new.failing_call ≡ self.old.failing_call }
        ensures faults { self.new.faults ≡ self.old.faults }
    {
        if self.at < self.moments.len() {
            self.at += 1;
        }
    }
}

impl Clock for ListClock {
    ghost state = { λ s. record { moments = Some s.moments; faults = s.faults } };

    fn now(&mut self) -> Result<i64, Failed>
        ensures fails { IsErr result
            ↔ ((self.old.failing_call ≡ 1) ⊎ ¬ (IsInRange (first_of self.old.moments))) }
        ensures failing_call { self.new.failing_call ≡ self.old.failing_call - 1 }
        ensures first { IfOk result (λ now. now ≡ first_of self.old.moments) }
        ensures rest { OnOk result (self.new.moments ≡ rest_of self.old.moments) }
        ensures kept { OnErr result (self.new.moments ≡ self.old.moments) }
        ensures cause { HasCause self.old.faults self.new.faults result }
        ensures fault { OnErr result (self.new.faults ≡ raised self.old.faults) }
    {
        if self.failing_call.is_now() {
            return Err(self.faults.raise());
        }
        let now = self.first();
        if !is_in_range(now) {
            return Err(self.faults.raise());
        }
        self.pass();
        Ok(now)
    }
}
