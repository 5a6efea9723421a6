//! The numbers that stand in a definition where its text has names.
ghost use Rattle.std.specs.Prelude.{◌≡◌};
ghost use Rattle.dv_meta.specs.Accepted.{table_number, number_of, number_in_table, source_number};
ghost use Rattle.dv_meta.specs.Columns.{column_names};
ghost use Rattle.dv_meta.specs.Index.{FindsColumns, IsIndexOf};
ghost use Rattle.dv_schema.specs.Limits.{IsWithinLimits};
ghost use Rattle.dv_meta.specs.Named.{relationship_names, lookup_number};
ghost use Rattle.dv_schema.specs.Names.{place_of};

use crate::index::Index;
use crate::index::lookup::{Found, source_of, table_named};
use dv_schema::{Draft, DraftRollup};
use dv_value::Text;

/// The number of a table.
pub(crate) fn table_number(draft: &Draft, index: &Index, name: &Text) -> u16
    requires index { IsIndexOf draft.now index.now }
    requires limits { IsWithinLimits draft.now }
    ensures { result ≡ table_number draft.now name.now }
{
    match index.tables.get(name) {
        Some(i) => i as u16,
        None => 0,
    }
}

/// The number of a relationship.
pub(crate) fn relationship_number(draft: &Draft, index: &Index, name: &Text) -> u16
    requires index { IsIndexOf draft.now index.now }
    requires limits { IsWithinLimits draft.now }
    ensures { result ≡ number_of (place_of (relationship_names draft.now.relationships) name.now) }
{
    match index.relationships.get(name) {
        Some(k) => k as u16,
        None => 0,
    }
}

/// The number of a lookup's relationship.
pub(crate) fn lookup_number(draft: &Draft, index: &Index, table: &Text, name: &Text) -> u16
    requires index { IsIndexOf draft.now index.now }
    requires limits { IsWithinLimits draft.now }
    ensures { result ≡ number_of (lookup_number draft.now table.now name.now) }
{
    match index.lookups.get(table, name) {
        Some(k) => k as u16,
        None => 0,
    }
}

impl Found<'_> {
    /// The number of a column of the table.
    pub(crate) fn number(&self, name: &Text) -> Option<u16>
        requires { FindsColumns self.now.columns.now self.now.table.now }
        ensures { result ≡ place_of (column_names self.now.table.now) name.now }
    {
        match self.columns.all.get(name) {
            Some(k) => Some(k as u16),
            None => None,
        }
    }
}

/// The number of a column of a table, by the names of both.
#[tactic(auto, unfolding(crate::specs::Accepted::number_in_table))]
pub(crate) fn number_in_table(
    draft: &Draft,
    index: &Index,
    table: &Text,
    name: &Text,
) -> Option<u16>
    requires { IsIndexOf draft.now index.now }
    ensures { result ≡ number_in_table draft.now table.now name.now }
{
    match table_named(draft, index, table) {
        Some(found) => found.number(name),
        None => None,
    }
}

/// The number of the column that a rollup takes.
#[tactic(auto, unfolding(crate::specs::Accepted::source_number))]
pub(crate) fn source_number(draft: &Draft, index: &Index, rollup: &DraftRollup) -> Option<u16>
    requires { IsIndexOf draft.now index.now }
    ensures { result ≡ source_number draft.now rollup.now }
{
    match &rollup.of {
        Some(name) => match source_of(draft, index, rollup) {
            Some(found) => found.number(name),
            None => None,
        },
        None => None,
    }
}
