//! The query's own table and the columns that are asked of it.

ghost use Rattle.std.specs.Prelude.{◌≡◌, IfOk, option_map};
ghost use Rattle.dv_query_check.specs.Base.{base_fault, base_place, base_kind, told_base, first_base_fault};

use crate::columns::unknown_in;
use crate::fault::{Fault, QueryKind};
use crate::path::Path;
use dv_schema::Table;
use dv_value::Names;
use std::alloc::{AllocError, Global};

/// What is wrong with a query's own table or its columns.
#[derive(Clone, Copy)]
pub(crate) enum BaseFault {
    UnknownTable,
    /// The name at this place is no column of the table.
    UnknownColumn(usize),
}

impl BaseFault {
    // The place of it.
    #[tactic(auto, unfolding(crate::specs::Base::base_place))]
    fn place(self, alloc: Global) -> Result<Path, AllocError>
        ensures { IfOk result (λ place. place ≡ base_place self) }
    {
        match self {
            BaseFault::UnknownTable => Path::of(alloc, "table"),
            BaseFault::UnknownColumn(i) => Path::of(alloc, "columns")?.item(alloc, i),
        }
    }

    // The kind of it.
    #[tactic(auto, unfolding(crate::specs::Base::base_kind))]
    fn kind(self) -> QueryKind
        ensures { result ≡ base_kind self }
    {
        match self {
            BaseFault::UnknownTable => QueryKind::Table,
            BaseFault::UnknownColumn(_) => QueryKind::Column,
        }
    }

    // The fault as it is told.
    fn told(self, alloc: Global) -> Result<Fault, AllocError>
        ensures { IfOk result (λ fault. fault ≡ told_base self) }
    {
        Ok(Fault {
            place: self.place(alloc)?,
            kind: self.kind(),
        })
    }
}

// What is wrong with the table or its columns.
#[tactic(auto, unfolding(crate::specs::Base::base_fault))]
fn base_fault(base: Option<&Table>, columns: &Option<Names>) -> Option<BaseFault>
    ensures { result ≡ base_fault (option_map (λ t. t.now) base.entry) columns.now }
{
    let Some(table) = base else {
        return Some(BaseFault::UnknownTable);
    };
    let Some(names) = columns else {
        return None;
    };
    match unknown_in(table, names.as_slice()) {
        Some(i) => Some(BaseFault::UnknownColumn(i)),
        None => None,
    }
}

/// The fault of a query's own table or columns.
#[tactic(auto, unfolding(crate::specs::Base::first_base_fault))]
pub(crate) fn first_base_fault(
    alloc: Global,
    base: Option<&Table>,
    columns: &Option<Names>,
) -> Result<Option<Fault>, AllocError>
    ensures { IfOk result (λ fault. fault
        ≡ first_base_fault (option_map (λ t. t.now) base.entry) columns.now) }
{
    match base_fault(base, columns) {
        Some(fault) => Ok(Some(fault.told(alloc)?)),
        None => Ok(None),
    }
}
