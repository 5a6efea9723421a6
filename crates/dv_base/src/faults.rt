//! What a fault is, how often an object met one, and which of its calls is to meet one.
ghost use Rattle.std.specs.Prelude.{◌≡◌, ◌-◌, ◌≤◌, ◌↔◌, IsTrue};
ghost use Rattle.dv_base.specs.Faults.{raised};

use std::marker::Model;

/// The outside didn't do its work. The object that answers this has counted a fault in the same call.
#[derive(Clone, Copy, Debug, PartialEq, Eq)]
pub struct Failed;

/// A count of faults, from 0. It never falls, and stands still at `u64::MAX`.
#[derive(Drop)]
pub(crate) struct FaultCount {
    count: u64,
}

impl Model for FaultCount {
    ghost use Rattle.std.specs.Prelude.{ℕ};

    ghost Value = { ℕ };

    ghost view = { λ s. s.count };
}

impl FaultCount {
    pub(crate) fn new() -> Self
        ensures { result ≡ 0 }
    {
        FaultCount { count: 0 }
    }

    /// Counts a fault, and gives the answer that tells of it.
    pub(crate) fn raise(&mut self) -> Failed
        ensures counted { self.new ≡ raised self.old }
        ensures later { self.old ≤ self.new }
    {
        self.count = self.count.saturating_add(1);
        Failed
    }
}

/// The call of an object in memory that is to fail, counted from the next one as 1. At 0 no call fails any more.
#[derive(Drop)]
pub(crate) struct FailingCall {
    number: u64,
}

impl Model for FailingCall {
    ghost use Rattle.std.specs.Prelude.{ℕ};

    ghost Value = { ℕ };

    ghost view = { λ s. s.number };
}

impl FailingCall {
    pub(crate) fn new(number: u64) -> Self
        ensures { result ≡ number }
    {
        FailingCall { number }
    }

    /// Counts a call, and tells whether it is the one that fails.
    pub(crate) fn is_now(&mut self) -> bool
        ensures now { IsTrue result ↔ (self.old ≡ 1) }
        ensures counted { self.new ≡ self.old - 1 }
    {
        let is_now = self.number == 1;
        self.number = self.number.saturating_sub(1);
        is_now
    }
}
