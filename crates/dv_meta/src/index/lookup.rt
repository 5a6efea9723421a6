//! What a name of a definition names.
ghost use Rattle.std.specs.Prelude.{◌≡◌, ◌<◌, Some, slice_get, option_map, option_copied, IfSome};
ghost use Rattle.dv_meta.specs.Index.{FindsColumns, IsIndexOf};
ghost use Rattle.dv_meta.specs.Named.{table_named, relationship_named, own_column, column_named};
ghost use Rattle.dv_meta.specs.UnknownName.{source_of};

use crate::index::Index;
use crate::index::table_columns::Columns;
use dv_schema::{Draft, DraftColumn, DraftRelationship, DraftRollup, DraftTable};
use dv_value::Text;
use sqlite_items::at;

/// A table beside its columns by name.
#[derive(Clone, Copy)]
pub(crate) struct Found<'a> {
    pub(crate) table: &'a DraftTable,
    pub(crate) columns: &'a Columns,
}

/// The table at a place.
pub(crate) fn table_at<'a>(draft: &'a Draft, index: &'a Index, i: usize) -> Option<Found<'a>>
    requires { IsIndexOf draft.now index.now }
    ensures table { option_map (λ found. found.table.now) result ≡ slice_get draft.now.tables i }
    ensures columns { IfSome result (λ found. FindsColumns found.columns.now found.table.now) }
{
    match draft.tables.get(i) {
        Some(table) => match at(index.columns.as_slice(), i) {
            Some(columns) => Some(Found { table, columns }),
            None => None,
        },
        None => None,
    }
}

/// The table of a name.
#[tactic(auto, unfolding(crate::specs::Named::table_named))]
pub(crate) fn table_named<'a>(draft: &'a Draft, index: &'a Index, name: &Text) -> Option<Found<'a>>
    requires { IsIndexOf draft.now index.now }
    ensures table { option_map (λ found. found.table.now) result ≡ table_named draft.now name.now }
    ensures columns { IfSome result (λ found. FindsColumns found.columns.now found.table.now) }
{
    match index.tables.get(name) {
        Some(i) => table_at(draft, index, i),
        None => None,
    }
}

/// The relationship of a name.
#[tactic(auto, unfolding(crate::specs::Named::relationship_named))]
pub(crate) fn relationship_named<'a>(
    draft: &'a Draft,
    index: &'a Index,
    name: &Text,
) -> Option<&'a DraftRelationship>
    requires { IsIndexOf draft.now index.now }
    ensures { option_copied result ≡ relationship_named draft.now name.now }
{
    match index.relationships.get(name) {
        Some(k) => draft.relationships.get(k),
        None => None,
    }
}

impl<'a> Found<'a> {
    /// The table's own column of a name.
    #[tactic(auto, unfolding(crate::specs::Named::own_column))]
    pub(crate) fn own_column(&self, name: &Text) -> Option<&'a DraftColumn>
        requires { FindsColumns self.now.columns.now self.now.table.now }
        ensures { option_copied result ≡ own_column self.now.table.now name.now }
    {
        match self.columns.own.get(name) {
            Some(j) => self.table.columns.get(j),
            None => None,
        }
    }
}

/// The own column of a table, by the names of both.
#[tactic(auto, unfolding(crate::specs::Named::column_named))]
pub(crate) fn column_named<'a>(
    draft: &'a Draft,
    index: &'a Index,
    table: &Text,
    name: &Text,
) -> Option<&'a DraftColumn>
    requires { IsIndexOf draft.now index.now }
    ensures { option_copied result ≡ column_named draft.now table.now name.now }
{
    match table_named(draft, index, table) {
        Some(found) => found.own_column(name),
        None => None,
    }
}

/// The table whose rows a rollup takes.
#[tactic(auto, unfolding(crate::specs::UnknownName::source_of))]
pub(crate) fn source_of<'a>(
    draft: &'a Draft,
    index: &'a Index,
    rollup: &DraftRollup,
) -> Option<Found<'a>>
    requires { IsIndexOf draft.now index.now }
    ensures table { option_map (λ found. found.table.now) result ≡ source_of draft.now rollup.now }
    ensures columns { IfSome result (λ found. FindsColumns found.columns.now found.table.now) }
{
    match relationship_named(draft, index, &rollup.over) {
        Some(r) => table_named(draft, index, &r.child),
        None => None,
    }
}
