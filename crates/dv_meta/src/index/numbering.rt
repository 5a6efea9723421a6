//! The one loop that numbers the names of a list.
ghost use Rattle.std.specs.Prelude.{◌≡◌, ◌<◌, ℕ, List, map, IfOk};
ghost use Rattle.dv_schema.specs.declared.draft.DraftTable.{DraftTable};
ghost use Rattle.dv_meta.specs.Index.{Finds};

use crate::index::names::Numbers;
use dv_schema::{Column, DraftColumn, DraftRelationship, DraftTable};
use dv_value::Text;
use std::alloc::{AllocError, Global};

/// What has a name.
pub(crate) trait Named {
    /// The name as contracts see it.
    ghost name_of: { Self → List ℕ };

    /// The name.
    fn name(&self) -> &Text
        ensures { result.now ≡ Self.name_of self.now };
}

impl Named for DraftTable {
    ghost name_of = { λ table. table.name };

    fn name(&self) -> &Text {
        &self.name
    }
}

impl Named for DraftRelationship {
    ghost name_of = { λ relationship. relationship.name };

    fn name(&self) -> &Text {
        &self.name
    }
}

impl Named for DraftColumn {
    ghost name_of = { λ column. column.name };

    fn name(&self) -> &Text {
        &self.name
    }
}

impl Named for Column {
    ghost name_of = { λ column. column.name };

    fn name(&self) -> &Text {
        &self.name
    }
}

/// The first place of each name in a list of what has names.
pub(crate) fn numbers_of<T: Named>(alloc: Global, items: &[T]) -> Result<Numbers, AllocError>
    ensures { IfOk result (λ numbers. Finds numbers (map T.name_of items.now)) }
{
    let mut numbers = Numbers::new(alloc);
    for (i, item) in items.iter().enumerate() {
        numbers.add(item.name().copy(alloc)?, i)?;
    }
    Ok(numbers)
}
