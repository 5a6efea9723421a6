//! Numbers in bytes.
ghost use Rattle.std.specs.Int.{to_be_bytes, w16, w32, w64};
ghost use Rattle.dv_cells.specs.Bytes.{flag_bytes, id_bytes};
ghost use Rattle.dv_cells.specs.Bytes.{FitsId, Fits16, Fits32, Fits64, IsFlag, Reads};

use dv_value::Id;

/// The number of two bytes.
pub(crate) fn read_u16(bytes: &[u8]) -> Option<u16>
    ensures { Reads (to_be_bytes w16) Fits16 bytes.now result }
{
    match <[u8; 2]>::try_from(bytes) {
        Ok(bytes) => Some(u16::from_be_bytes(bytes)),
        Err(_) => None,
    }
}

/// The number of four bytes.
pub(crate) fn read_u32(bytes: &[u8]) -> Option<u32>
    ensures { Reads (to_be_bytes w32) Fits32 bytes.now result }
{
    match <[u8; 4]>::try_from(bytes) {
        Ok(bytes) => Some(u32::from_be_bytes(bytes)),
        Err(_) => None,
    }
}

/// The number of eight bytes.
pub(crate) fn read_u64(bytes: &[u8]) -> Option<u64>
    ensures { Reads (to_be_bytes w64) Fits64 bytes.now result }
{
    match <[u8; 8]>::try_from(bytes) {
        Ok(bytes) => Some(u64::from_be_bytes(bytes)),
        Err(_) => None,
    }
}

/// The id of 16 bytes.
pub(crate) fn read_id(bytes: &[u8]) -> Option<Id>
    ensures { Reads id_bytes FitsId bytes.now result }
{
    match <[u8; 16]>::try_from(bytes) {
        Ok(bytes) => Some(Id(u128::from_be_bytes(bytes))),
        Err(_) => None,
    }
}

/// The truth value of one byte, which is 0 or 1.
pub(crate) fn read_flag(bytes: &[u8]) -> Option<bool>
    ensures { Reads flag_bytes IsFlag bytes.now result }
{
    match bytes {
        [0] => Some(false),
        [1] => Some(true),
        _ => None,
    }
}
