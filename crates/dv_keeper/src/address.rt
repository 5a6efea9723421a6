//! Where a cell is, as one string of bytes.
ghost use Rattle.std.specs.Prelude.{◌≡◌, IfOk};
ghost use Rattle.std.specs.Option.{option_copied};
ghost use Rattle.dv_keeper.specs.Memory.{address, key_in, start_after};

use std::alloc::{AllocError, Global};
use std::cmp::Ordering;
use std::marker::Model;
use std::ops::Bound;

/// The byte of a sheet and then a key, so that addresses in byte order are sheets in order and
/// their keys in order.
#[derive(Drop)]
pub(crate) struct Address {
    bytes: Vec<u8>,
}

impl Model for Address {
    ghost use Rattle.std.specs.Prelude.{ℕ, List};

    ghost Value = { List ℕ };

    ghost view = { λ a. a.bytes.items };
}

impl Address {
    pub fn new(alloc: Global, sheet: u8, key: &[u8]) -> Result<Address, AllocError>
        ensures { IfOk result (λ at. at ≡ address sheet key.now) }
    {
        let mut bytes = Vec::from_slice(alloc, &[sheet])?;
        bytes.extend_from_slice(key)?;
        Ok(Address { bytes })
    }

    pub fn copy(&self, alloc: Global) -> Result<Address, AllocError>
        ensures { IfOk result (λ at. at ≡ self.now) }
    {
        Ok(Address {
            bytes: Vec::from_slice(alloc, self.bytes.as_slice())?,
        })
    }

    /// The key, where the address is of this sheet.
    pub fn key_in(&self, sheet: u8) -> Option<&[u8]>
        ensures { option_copied result ≡ key_in sheet self.now }
    {
        match self.bytes.as_slice().split_first() {
            Some((first, key)) if *first == sheet => Some(key),
            _ => None,
        }
    }
}

/// Where the cells of a sheet after a key begin, or where the sheet begins.
pub(crate) fn start_after(
    alloc: Global,
    sheet: u8,
    key: Option<&[u8]>,
) -> Result<Bound<Address>, AllocError>
    ensures { IfOk result (λ start. start ≡ start_after sheet (option_copied key.entry)) }
{
    match key {
        Some(key) => Ok(Bound::Excluded(Address::new(alloc, sheet, key)?)),
        None => Ok(Bound::Included(Address::new(alloc, sheet, &[])?)),
    }
}

impl PartialEq for Address {
    ghost use Rattle.std.proofs.Common.{rules};
    ghost use Rattle.std.specs.Str.{bytes_eq};
    ghost use Rattle.std.specs.Cmp.Rules.{comparing};

    ghost eq = { bytes_eq };

    ghost laws = { Prim.search (comparing, rules) };

    fn eq(&self, other: &Address) -> bool {
        self.bytes.as_slice() == other.bytes.as_slice()
    }
}

impl Eq for Address {
    ghost use Rattle.std.proofs.Common.{rules};
    ghost use Rattle.std.specs.Cmp.Rules.{comparing};

    ghost laws = { Prim.search (comparing, rules) };
}

impl Ord for Address {
    ghost use Rattle.std.proofs.Common.{rules};
    ghost use Rattle.std.specs.Cmp.Lexicographic.{slice_cmp};
    ghost use Rattle.std.specs.Cmp.Rules.{comparing};
    ghost use Rattle.std.specs.Ordering.{nat_cmp};

    ghost cmp = { slice_cmp nat_cmp };

    ghost total = { Prim.search (comparing, rules) };

    ghost matches_partial_cmp = { Prim.search (comparing, rules) };

    ghost matches_eq = { Prim.search (comparing, rules) };

    fn cmp(&self, other: &Address) -> Ordering {
        self.bytes.as_slice().cmp(other.bytes.as_slice())
    }
}

impl PartialOrd for Address {
    ghost use Rattle.std.proofs.Common.{rules};
    ghost use Rattle.std.specs.Cmp.{partial_order_from_own_ties};
    ghost use Rattle.std.specs.Cmp.Lexicographic.{slice_cmp};
    ghost use Rattle.std.specs.Cmp.Rules.{comparing};
    ghost use Rattle.std.specs.Ordering.{nat_cmp, as_partial_cmp};

    ghost partial_cmp = { as_partial_cmp (slice_cmp nat_cmp) };

    ghost laws = { partial_order_from_own_ties (Prim.search (comparing, rules)) (Prim.search (comparing, rules)) };

    fn partial_cmp(&self, other: &Address) -> Option<Ordering> {
        Some(self.cmp(other))
    }
}
