//! The first place of each name of a definition, so that a name is looked up and not searched.
ghost use Rattle.std.specs.Prelude.{◌≡◌, ◌<◌, IfOk};
ghost use Rattle.dv_meta.specs.Index.{Finds, FindsLookups, IsIndexOf};
ghost use Rattle.dv_schema.specs.Limits.{IsWithinLimits};
ghost use Rattle.dv_meta.specs.Named.{lookup_of};
ghost use Rattle.dv_schema.specs.Names.{Name};
ghost use Rattle.dv_meta.specs.Numbers.{lookup_in};

pub(crate) mod lookup;
pub(crate) mod names;
mod numbering;
pub(crate) mod table_columns;

use crate::index::names::{Lookups, Numbers};
use dv_schema::{Draft, DraftRelationship};
use numbering::numbers_of;
use std::alloc::{AllocError, Global};
use table_columns::{Columns, columns_of_each};

/// The first place of each name of a definition, so that a name is looked up and not searched.
#[derive(Drop)]
pub(crate) struct Index {
    pub(crate) tables: Numbers,
    pub(crate) relationships: Numbers,
    /// The relationship of a child's lookup.
    pub(crate) lookups: Lookups,
    /// For each table, its columns.
    pub(crate) columns: Vec<Columns>,
}

impl Index {
    /// Finds every name of a definition.
    pub(crate) fn of(alloc: Global, draft: &Draft) -> Result<Index, AllocError>
        requires { IsWithinLimits draft.now }
        ensures { IfOk result (λ index. IsIndexOf draft.now index) }
    {
        Ok(Index {
            tables: numbers_of(alloc, draft.tables.as_slice())?,
            relationships: numbers_of(alloc, draft.relationships.as_slice())?,
            lookups: lookup_numbers(alloc, draft.relationships.as_slice())?,
            columns: columns_of_each(alloc, draft.tables.as_slice())?,
        })
    }
}

fn lookup_numbers(alloc: Global, relationships: &[DraftRelationship]) -> Result<Lookups, AllocError>
    ensures { IfOk result (λ lookups. FindsLookups lookups relationships.now) }
{
    let mut lookups = Lookups::new(alloc);
    for (i, relationship) in relationships.iter().enumerate() {
        let child = relationship.child.copy(alloc)?;
        let column = relationship.column.copy(alloc)?;
        lookups.add(alloc, child, column, i)?;
    }
    Ok(lookups)
}
