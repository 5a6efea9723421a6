//! What changes write, with all the memory that it takes.
ghost use Rattle.std.specs.Prelude.{◌≡◌, IfOk, map};
ghost use Rattle.dv_keeper.specs.Memory.{write_of};

use crate::address::Address;
use crate::cell::{Bytes, Change};
use std::alloc::{AllocError, Global};

/// The value that comes to an address, or that none does.
#[derive(Drop)]
pub(crate) struct Write {
    pub address: Address,
    pub value: Option<Bytes>,
}

impl Write {
    /// What a change writes.
    fn of(alloc: Global, change: &Change) -> Result<Write, AllocError>
        ensures { IfOk result (λ write. write ≡ write_of change.now) }
    {
        match change {
            Change::Put { sheet, key, value } => Ok(Write {
                address: Address::new(alloc, *sheet, key.as_slice())?,
                value: Some(Bytes::from_slice(alloc, value.as_slice())?),
            }),
            Change::Take { sheet, key } => Ok(Write {
                address: Address::new(alloc, *sheet, key.as_slice())?,
                value: None,
            }),
        }
    }
}

/// What changes write, in their order.
pub(crate) fn writes_of(alloc: Global, changes: &[Change]) -> Result<Vec<Write>, AllocError>
    ensures { IfOk result (λ writes. writes.items ≡ map write_of changes.now) }
{
    let mut writes = Vec::new(alloc);
    for change in changes {
        writes.push(Write::of(alloc, change)?)?;
    }
    Ok(writes)
}
