//! The counters of versions and ids.
ghost use Rattle.std.specs.Prelude.{◌≡◌, ◌≤◌, ◌+◌, ◌-◌, ◌^◌, length, OnOk, OnErr, IfOk, IfErr, nat_lt};
ghost use Rattle.dv_work.specs.History.{back_at};
ghost use Rattle.dv_store.specs.World.{bumped, fault_at, id_drawn};
ghost use Rattle.dv_store.specs.Kept.{IsWell, Moves};

use crate::cells::Cells;
use crate::fault::StoreFault;
use crate::item::Totals;
use dv_refusal::What;
use dv_value::Id;

/// The counters: the last version that was given out, the last id that was drawn, and the floor, the version up to
/// which removals were dropped.
#[derive(Clone, Copy, Debug, PartialEq, Eq)]
pub struct Numbers {
    pub version: u64,
    pub last_id: u64,
    pub floor: u64,
}

/// Gives out the next version.
pub(crate) fn bump(cells: &mut Cells) -> Result<u64, StoreFault>
    requires { IsWell cells.old.present }
    ensures ok { OnOk result (Moves cells.old cells.new (bumped cells.old.present.world)) }
    ensures version { IfOk result (λ version. version ≡ cells.old.present.world.version + 1) }
    ensures err { IfErr result (λ e. e ≡ fault_at
        (nat_lt (2 ^ 63 - 1) (cells.old.present.world.version + 1)) What.Version) }
    ensures within { OnOk result (cells.old.present.world.version + 1 ≤ 2 ^ 63 - 1) }
    ensures back { OnErr result (cells.new ≡ cells.old) }
{
    let totals = cells.totals();
    let version = totals.version + 1;
    if version > i64::MAX as u64 {
        return Err(StoreFault::Limit(What::Version));
    }
    cells.begin(Totals { version, ..totals })?;
    Ok(version)
}

/// Draws the next id.
pub(crate) fn fresh_id(cells: &mut Cells) -> Result<Id, StoreFault>
    requires { IsWell cells.old.present }
    ensures ok { OnOk result (Moves cells.old cells.new (id_drawn cells.old.present.world)) }
    ensures id { IfOk result (λ id. id.0 ≡ cells.old.present.world.last_id + 1) }
    ensures err { IfErr result (λ e. e ≡ fault_at
        (nat_lt (2 ^ 64 - 1) (cells.old.present.world.last_id + 1)) What.Id) }
    ensures within { OnOk result (cells.old.present.world.last_id + 1 ≤ 2 ^ 64 - 1) }
    ensures back { OnErr result (cells.new ≡ cells.old) }
{
    let totals = cells.totals();
    let Some(last_id) = totals.last_id.checked_add(1) else {
        return Err(StoreFault::Limit(What::Id));
    };
    cells.begin(Totals { last_id, ..totals })?;
    Ok(Id(u128::from(last_id)))
}
