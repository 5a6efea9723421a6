//! Which of its calls a keeper in memory is to fail, and how often it failed.
ghost use Rattle.std.specs.Prelude.{◌≡◌, ◌-◌, ◌≤◌, ◌↔◌, IsTrue};
ghost use Rattle.dv_base.specs.Faults.{raised};
ghost use Rattle.dv_keeper.specs.declared.cell.KeeperFault.TheVariants.{Failed};

use crate::cell::KeeperFault;

/// Counts a call, and tells whether it is the one that fails. Calls are counted down to it from
/// the next one as 1; at 0 no call fails any more.
pub(crate) fn is_now(failing_call: &mut u64) -> bool
    ensures now { IsTrue result ↔ (failing_call.old ≡ 1) }
    ensures counted { failing_call.new ≡ failing_call.old - 1 }
{
    let is_now = *failing_call == 1;
    *failing_call = failing_call.saturating_sub(1);
    is_now
}

/// Counts a fault, and gives the answer that tells of it.
pub(crate) fn raise(faults: &mut u64) -> KeeperFault
    ensures fault { result ≡ Failed }
    ensures counted { faults.new ≡ raised faults.old }
    ensures later { faults.old ≤ faults.new }
{
    *faults = faults.saturating_add(1);
    KeeperFault::Failed
}
