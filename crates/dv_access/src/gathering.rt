//! Ids of rows gathered by walks over what is told.
ghost use Rattle.std.specs.Prelude.{◌≡◌, IsTrue, IsSome, OnOk, true};
ghost use Rattle.std.specs.FinMap as map;
ghost use Rattle.dv_schema.specs.declared.opening.Action.TheVariants.{Read};
ghost use Rattle.dv_store.specs.Keys.{grant_key};
ghost use Rattle.dv_store.specs.World.{row_at, grant_at, names};
ghost use Rattle.dv_store.specs.Cursors.{owner_place};
ghost use Rattle.dv_access.specs.Rights.{has_right, grant_has};
ghost use Rattle.dv_access.specs.Gathered.{Gathers};

use crate::masks;
use dv_schema::Action;
use dv_store::Cursors;
use dv_value::Id;
use std::alloc::AllocError;

/// Gathers all rows of a table.
pub(crate) fn gather_rows<C: Cursors>(
    cursors: &mut C,
    table: u16,
    ids: &mut Vec<Id>,
) -> Result<(), AllocError>
    ensures gathers { OnOk result (Gathers
        (λ id. IsSome (row_at (C.told cursors.old).rows table id)) ids.old.items ids.new.items) }
    ensures told { C.told cursors.new ≡ C.told cursors.old }
{
    let mut after = None;
    'rows: while let Some(id) = cursors.row_after(table, after) {
        ids.push(id)?;
        after = Some(id);
    }
    Ok(())
}

/// Gathers the rows of a table that an id owns.
pub(crate) fn gather_owned<C: Cursors>(
    cursors: &mut C,
    table: u16,
    owner: Id,
    ids: &mut Vec<Id>,
) -> Result<(), AllocError>
    ensures gathers { OnOk result (Gathers
        (λ id. names (row_at (C.told cursors.old).rows table id) owner_place owner ≡ true)
        ids.old.items ids.new.items) }
    ensures told { C.told cursors.new ≡ C.told cursors.old }
{
    let mut after = None;
    'rows: while let Some(id) = cursors.owned_after(table, owner, after) {
        ids.push(id)?;
        after = Some(id);
    }
    Ok(())
}

/// Gathers a row that is shared, where the rights on it let it be read.
fn gather_readable(ids: &mut Vec<Id>, id: Id, granted: u32) -> Result<(), AllocError>
    ensures { OnOk result (Gathers (λ other. (other ≡ id) × IsTrue (has_right granted Read))
        ids.old.items ids.new.items) }
{
    if masks::has_right(granted, Action::Read) {
        ids.push(id)?;
    }
    Ok(())
}

/// Gathers the rows of a table that a grant of a principal lets it read.
pub(crate) fn gather_shared<C: Cursors>(
    cursors: &mut C,
    table: u16,
    principal: Id,
    ids: &mut Vec<Id>,
) -> Result<(), AllocError>
    ensures gathers { OnOk result (Gathers
        (λ id. IsTrue (grant_has (grant_at (C.told cursors.old).grants table id principal) Read))
        ids.old.items ids.new.items) }
    ensures told { C.told cursors.new ≡ C.told cursors.old }
{
    let mut after = None;
    'rows: while let Some((id, granted)) = cursors.shared_after(table, principal, after) {
        gather_readable(ids, id, granted)?;
        after = Some(id);
    }
    Ok(())
}
