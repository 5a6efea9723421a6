//! Fault BadRollup: a rollup that can't be calculated, or that is required.
ghost use Rattle.std.specs.Prelude.{◌≡◌, position};
ghost use Rattle.dv_schema.specs.First.{first};
ghost use Rattle.dv_meta.specs.Index.{FindsColumns, IsIndexOf};
ghost use Rattle.dv_meta.specs.Rollups.{is_countable, is_source, names_source, of_suits, goes_over, source_suits, rollup_bad, bad_in, bad_rollup};

use crate::index::Index;
use crate::index::lookup::{Found, relationship_named, source_of};
use dv_schema::{Draft, DraftColumn, DraftForm, DraftRollup, DraftTable, Place, RollupKind};
use dv_value::{Kind, Text};

fn is_countable(kind: &Kind) -> bool
    ensures { result ≡ is_countable kind.now }
{
    match kind {
        Kind::Whole { .. } => true,
        Kind::Amount { .. } => true,
        Kind::Flag | Kind::Choice { .. } | Kind::Moment | Kind::Text { .. } | Kind::Ref => false,
    }
}

fn is_source(form: &DraftForm) -> bool
    ensures { result ≡ is_source form.now }
{
    match form {
        DraftForm::Plain(kind) => is_countable(kind),
        DraftForm::Lookup => false,
        DraftForm::Rollup(_) => false,
    }
}

impl Found<'_> {
    // Whether a name is given and names a column that a rollup can take.
    fn has_source(&self, of: &Option<Text>) -> bool
        requires { FindsColumns self.now.columns.now self.now.table.now }
        ensures { result ≡ names_source self.now.table.now of.now }
    {
        match of {
            Some(name) => match self.own_column(name) {
                Some(column) => is_source(&column.form),
                None => false,
            },
            None => false,
        }
    }

    // Whether the column that is given suits what the rollup makes of it.
    fn suits(&self, rollup: &DraftRollup) -> bool
        requires { FindsColumns self.now.columns.now self.now.table.now }
        ensures { result ≡ of_suits rollup.now.kind self.now.table.now rollup.now.of }
    {
        match rollup.kind {
            RollupKind::Count => rollup.of.is_none(),
            RollupKind::Sum => self.has_source(&rollup.of),
            RollupKind::Min => self.has_source(&rollup.of),
            RollupKind::Max => self.has_source(&rollup.of),
        }
    }
}

#[tactic(auto, unfolding(crate::specs::Rollups::goes_over))]
fn goes_over(draft: &Draft, index: &Index, table: &Text, rollup: &DraftRollup) -> bool
    requires { IsIndexOf draft.now index.now }
    ensures { result ≡ goes_over draft.now table.now rollup.now }
{
    match relationship_named(draft, index, &rollup.over) {
        Some(r) => r.parent == *table,
        None => false,
    }
}

#[tactic(auto, unfolding(crate::specs::Rollups::source_suits))]
fn source_suits(draft: &Draft, index: &Index, rollup: &DraftRollup) -> bool
    requires { IsIndexOf draft.now index.now }
    ensures { result ≡ source_suits draft.now rollup.now }
{
    match source_of(draft, index, rollup) {
        Some(found) => found.suits(rollup),
        None => false,
    }
}

#[tactic(auto, unfolding(crate::specs::Rollups::rollup_bad))]
fn rollup_bad(draft: &Draft, index: &Index, table: &DraftTable, column: &DraftColumn) -> bool
    requires { IsIndexOf draft.now index.now }
    ensures { result ≡ rollup_bad draft.now table.now column.now }
{
    match &column.form {
        DraftForm::Plain(_) => false,
        DraftForm::Lookup => false,
        DraftForm::Rollup(rollup) => {
            if column.required {
                return true;
            }
            !(goes_over(draft, index, &table.name, rollup) && source_suits(draft, index, rollup))
        }
    }
}

/// The first rollup that can't be calculated, or that is required.
#[tactic(auto, unfolding(crate::specs::Rollups::bad_rollup))]
pub(crate) fn bad_rollup(draft: &Draft, index: &Index) -> Option<Place>
    requires { IsIndexOf draft.now index.now }
    ensures { result ≡ bad_rollup draft.now }
{
    bad_in_each(draft, index, draft.tables.as_slice())
}

fn bad_in_each(draft: &Draft, index: &Index, tables: &[DraftTable]) -> Option<Place>
    requires { IsIndexOf draft.now index.now }
    ensures { result ≡ first (bad_in draft.now) tables.now }
{
    for (i, table) in tables.iter().enumerate() {
        if let Some(place) = bad_in(draft, index, i, table) {
            return Some(place);
        }
    }
    None
}

#[tactic(auto, unfolding(crate::specs::Rollups::bad_in))]
fn bad_in(draft: &Draft, index: &Index, i: usize, table: &DraftTable) -> Option<Place>
    requires { IsIndexOf draft.now index.now }
    ensures { result ≡ bad_in draft.now i table.now }
{
    match first_bad_column(draft, index, table) {
        Some(j) => Some(Place::Column(i, j)),
        None => None,
    }
}

fn first_bad_column(draft: &Draft, index: &Index, table: &DraftTable) -> Option<usize>
    requires { IsIndexOf draft.now index.now }
    ensures { result ≡ position (rollup_bad draft.now table.now) table.now.columns }
{
    let columns = table.columns.as_slice();
    columns
        .iter()
        .position(|column| rollup_bad(draft, index, table, column))
}
