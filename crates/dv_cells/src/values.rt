//! What else stands in values.
ghost use Rattle.dv_cells.specs.Bytes.{counters_bytes, flagged_bytes, header_bytes, rights_bytes};
ghost use Rattle.dv_cells.specs.Bytes.{FitsCounters, FitsFlagged, FitsRights, Reads};

use crate::bytes::{read_flag, read_id, read_u32, read_u64};
use dv_store::Numbers;
use dv_value::Id;

/// The layout that is read and written.
pub(crate) const LAYOUT: u32 = 1;

/// An id and a truth value.
pub(crate) fn read_flagged(bytes: &[u8]) -> Option<(Id, bool)>
    ensures { Reads flagged_bytes FitsFlagged bytes.now result }
{
    let (id, flag) = bytes.split_first_chunk::<16>()?;
    Some((read_id(id)?, read_flag(flag)?))
}

/// Direct and inherited rights.
pub(crate) fn read_rights(bytes: &[u8]) -> Option<(u32, u32)>
    ensures { Reads rights_bytes FitsRights bytes.now result }
{
    let (direct, inherited) = bytes.split_first_chunk::<4>()?;
    Some((read_u32(direct)?, read_u32(inherited)?))
}

/// The three counters.
fn read_counters(bytes: &[u8]) -> Option<Numbers>
    ensures { Reads counters_bytes FitsCounters bytes.now result }
{
    let (version, rest) = bytes.split_first_chunk::<8>()?;
    let (last_id, floor) = rest.split_first_chunk::<8>()?;
    let version = read_u64(version)?;
    let last_id = read_u64(last_id)?;
    let floor = read_u64(floor)?;
    Some(Numbers {
        version,
        last_id,
        floor,
    })
}

/// The layout and the three counters.
pub(crate) fn read_header(bytes: &[u8]) -> Option<Numbers>
    ensures { Reads header_bytes FitsCounters bytes.now result }
{
    let (layout, counters) = bytes.split_first_chunk::<4>()?;
    if read_u32(layout)? != LAYOUT {
        return None;
    }
    read_counters(counters)
}
