//! Ids and numbers one after the other, as keys and values have them.
ghost use Rattle.dv_cells.specs.Bytes.{dirty_bytes, grant_bytes, pair_bytes, row_bytes};
ghost use Rattle.dv_cells.specs.Bytes.{FitsDirty, FitsGrant, FitsPair, FitsRow, Reads};

use crate::bytes::{read_id, read_u16};
use dv_store::{DirtyKey, GrantKey, RowKey};
use dv_value::Id;

/// Two ids.
pub(crate) fn read_pair(bytes: &[u8]) -> Option<(Id, Id)>
    ensures { Reads pair_bytes FitsPair bytes.now result }
{
    let (first, second) = bytes.split_first_chunk::<16>()?;
    Some((read_id(first)?, read_id(second)?))
}

/// A table's number and an id.
pub(crate) fn read_row(bytes: &[u8]) -> Option<RowKey>
    ensures { Reads row_bytes FitsRow bytes.now result }
{
    let (table, id) = bytes.split_first_chunk::<2>()?;
    let table = read_u16(table)?;
    let id = read_id(id)?;
    Some(RowKey { table, id })
}

/// A row and a principal.
pub(crate) fn read_grant(bytes: &[u8]) -> Option<GrantKey>
    ensures { Reads grant_bytes FitsGrant bytes.now result }
{
    let (row, principal) = bytes.split_first_chunk::<18>()?;
    let row = read_row(row)?;
    let principal = read_id(principal)?;
    Some(GrantKey { row, principal })
}

/// A row and the number of a column.
pub(crate) fn read_dirty(bytes: &[u8]) -> Option<DirtyKey>
    ensures { Reads dirty_bytes FitsDirty bytes.now result }
{
    let (row, column) = bytes.split_first_chunk::<18>()?;
    let row = read_row(row)?;
    let column = read_u16(column)?;
    Some(DirtyKey { row, column })
}
