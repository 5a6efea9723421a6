//! What a row hands down to the rows under it.
ghost use Rattle.std.specs.Prelude.{◌≡◌, IfOk, IsSome, OnOk, if◌then◌else◌};
ghost use Rattle.std.specs.FinMap as fin;
ghost use Rattle.dv_store.specs.World.{is_id};
ghost use Rattle.dv_cascade.specs.Links.{owner_of};
ghost use Rattle.dv_shares.specs.Grants.{on_row};
ghost use Rattle.dv_shares.specs.Inheriting.{all_rights};
ghost use Rattle.dv_shares.specs.Handing.{handed_by, owner_shares, share_of, AddsShares, AreShares};

use dv_cascade::owner_of;
use dv_store::{RowKey, Store};
use dv_value::Id;
use std::alloc::{AllocError, Global};

/// All rights together: each right that an action on a row needs but that to create one.
const ALL_RIGHTS: u32 = 851_991;

/// The share of a principal in what a row hands down.
#[derive(Clone, Copy)]
pub(crate) struct Share {
    pub principal: Id,
    pub mask: u32,
}

/// All rights for an owner, and none for others.
fn owner_rights(owner: Option<Id>, principal: Id) -> u32
    ensures { result ≡ (if is_id principal owner then all_rights else 0) }
{
    match owner {
        Some(owner) if owner.0 == principal.0 => ALL_RIGHTS,
        _ => 0,
    }
}

/// The share of a principal in what a row hands down: its rights on the row, and all rights where
/// it is the owner, who is given.
fn share_of(store: &Store, row: RowKey, owner: Option<Id>, principal: Id) -> Share
    requires { owner ≡ owner_of store.now.present row }
    ensures { result ≡ share_of store.now.present row principal }
{
    let (direct, inherited) = store.grant(row.table, row.id, principal);
    Share {
        principal,
        mask: direct | inherited | owner_rights(owner, principal),
    }
}

/// Adds the shares of those that have grants on a row.
fn share_with_granted(store: &Store, row: RowKey, shares: &mut Vec<Share>) -> Result<(), AllocError>
    ensures { OnOk result (AddsShares (handed_by store.now.present row)
        (λ principal. IsSome (fin.get store.now.present.grants (on_row principal row)))
        shares.old.items shares.new.items) }
{
    let owner = owner_of(store, row);
    let mut after = None;
    'principals: while let Some(principal) = store.principal_after(row.table, row.id, after) {
        shares.push(share_of(store, row, owner, principal))?;
        after = Some(principal);
    }
    Ok(())
}

/// The share of a row's owner, if it has one.
fn share_of_owner(alloc: Global, store: &Store, row: RowKey) -> Result<Vec<Share>, AllocError>
    ensures { IfOk result (λ shares. shares.items
        ≡ owner_shares store.now.present row (owner_of store.now.present row)) }
{
    let owner = owner_of(store, row);
    let mut shares = Vec::new(alloc);
    if let Some(principal) = owner {
        shares.push(share_of(store, row, owner, principal))?;
    }
    Ok(shares)
}

/// The shares in what a row hands down: that of its owner, and those of all that have grants on it.
pub(crate) fn shares_of(alloc: Global, store: &Store, row: RowKey) -> Result<Vec<Share>, AllocError>
    ensures { IfOk result (λ shares.
        AreShares (handed_by store.now.present row) shares.items) }
{
    let mut shares = share_of_owner(alloc, store, row)?;
    share_with_granted(store, row, &mut shares)?;
    Ok(shares)
}
