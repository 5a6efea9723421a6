//! Setting the rights of a grant.
ghost use Rattle.std.specs.Prelude.{◌≡◌, ◌≤◌, length, OnOk, OnErr, IfErr, nat_lt};
ghost use Rattle.std.specs.FinMap as map;
ghost use Rattle.dv_work.specs.History.{back_at, with_present, with_state};
ghost use Rattle.dv_store.specs.World.{fault_at, grant_set, is_none, grant_total, most_grants, Stands};
ghost use Rattle.dv_store.specs.Kept.{grant_item, with_count, with_grant, IsWell, Moves};

use crate::cells::Cells;
use crate::fault::StoreFault;
use crate::item::{Item, Totals};
use crate::keys::{By, Entry, GrantKey, Key, Listing, Place};
use crate::listing::present_if;
use dv_refusal::What;
use std::alloc::AllocError;

/// The most grants that there may be.
pub(crate) const MOST_GRANTS: u64 = 500_000;

/// The item of a grant, if its rights aren't zeros.
fn item_of(direct: u32, inherited: u32) -> Option<Item>
    ensures { result ≡ grant_item direct inherited }
{
    if is_none(direct, inherited) {
        None
    } else {
        Some(Item::Grant(direct, inherited))
    }
}

/// How many grants there are, one left out.
fn grants_without(cells: &Cells, key: GrantKey) -> u64
    requires { IsWell cells.now.present }
    ensures { result ≡ map.len (map.remove cells.now.present.world.grants key) }
{
    let grants = cells.totals().grants;
    if cells.has_grant(key) {
        grants - 1
    } else {
        grants
    }
}

/// How many grants there will be when the rights of one were set.
pub(crate) fn grants_after(cells: &Cells, key: GrantKey, direct: u32, inherited: u32) -> u64
    requires { IsWell cells.now.present }
    ensures { result
        ≡ grant_total (grant_set cells.now.present.world key direct inherited) }
{
    let grants = grants_without(cells, key);
    if is_none(direct, inherited) {
        grants
    } else {
        grants + 1
    }
}

/// Whether rights are zeros, which is no grant.
fn is_none(direct: u32, inherited: u32) -> bool
    ensures { result ≡ is_none direct inherited }
{
    direct == 0 && inherited == 0
}

/// Puts the grant in its cell and in the list of its principal, or takes it from both.
pub(crate) fn put_grant(
    cells: &mut Cells,
    key: GrantKey,
    direct: u32,
    inherited: u32,
) -> Result<(), AllocError>
    ensures ok { OnOk result (cells.new ≡ with_present cells.old
        (with_grant cells.old.present key direct inherited)) }
    ensures err { OnErr result (cells.new.earlier ≡ cells.old.earlier) }
{
    let list = Listing {
        table: key.row.table,
        by: By::Grant,
        of: key.principal,
    };
    let entry = Entry {
        list,
        id: key.row.id,
    };
    let there = !is_none(direct, inherited);
    cells.amend(Key::At(Place::Grant(key)), item_of(direct, inherited))?;
    cells.amend(Key::In(entry), present_if(there))
}

/// Sets the rights of a grant, in the state after one that is kept.
fn make_grant(
    cells: &mut Cells,
    key: GrantKey,
    direct: u32,
    inherited: u32,
    grants: u64,
) -> Result<(), AllocError>
    ensures ok { OnOk result (cells.new ≡ with_state cells.old
        (with_grant (with_count cells.old.present grants) key direct inherited)) }
    ensures back { OnErr result (back_at cells.new (length cells.old.earlier) ≡ cells.old) }
{
    let totals = cells.totals();
    cells.begin(Totals { grants, ..totals })?;
    put_grant(cells, key, direct, inherited)
}

/// Sets the rights of a grant.
pub(crate) fn set_grant(
    cells: &mut Cells,
    key: GrantKey,
    direct: u32,
    inherited: u32,
) -> Result<(), StoreFault>
    requires well { IsWell cells.old.present }
    requires stands { Stands cells.old.present.world key }
    ensures ok { OnOk result (Moves cells.old cells.new
        (grant_set cells.old.present.world key direct inherited)) }
    ensures within { OnOk result
        (grant_total (grant_set cells.old.present.world key direct inherited) ≤ most_grants) }
    ensures err { IfErr result (λ e. e ≡ fault_at (nat_lt most_grants
        (grant_total (grant_set cells.old.present.world key direct inherited))) What.Grant) }
    ensures back { OnErr result (back_at cells.new (length cells.old.earlier) ≡ cells.old) }
{
    let grants = grants_after(cells, key, direct, inherited);
    if grants > MOST_GRANTS {
        return Err(StoreFault::Limit(What::Grant));
    }
    match make_grant(cells, key, direct, inherited, grants) {
        Ok(()) => Ok(()),
        Err(_) => Err(StoreFault::OutOfMemory),
    }
}
