//! Fault UnknownName: a name of what isn't there, or a lookup without its relationship.
ghost use Rattle.std.specs.Prelude.{◌≡◌, not, position};
ghost use Rattle.dv_meta.specs.Columns.{column_names};
ghost use Rattle.dv_schema.specs.First.{first};
ghost use Rattle.dv_meta.specs.Index.{FindsColumns, IsIndexOf};
ghost use Rattle.dv_schema.specs.Names.{is_among};
ghost use Rattle.dv_meta.specs.UnknownName.{of_unknown, source_of, rollup_unknown, column_unknown, is_lookup, names_lookup, relationship_unknown, names_unknown, given_unknown, registration_unknown_on, registration_unknown, privilege_unknown, role_unknown, unknown_in, unknown_in_tables, unknown_in_relationships, unknown_in_steps, unknown_in_roles, unknown_name};

use crate::index::Index;
use crate::index::lookup::{Found, column_named, source_of, table_named};
use dv_schema::{
    Draft, DraftColumn, DraftForm, DraftRegistration, DraftRelationship, DraftRollup, DraftTable,
    Entry, Place, Role,
};
use dv_value::{Names, Text};

impl Found<'_> {
    // Whether a name is none of the table's columns.
    fn lacks(&self, name: &Text) -> bool
        requires { FindsColumns self.now.columns.now self.now.table.now }
        ensures { result ≡ not (is_among (column_names self.now.table.now) name.now) }
    {
        self.columns.all.get(name).is_none()
    }

    // Whether one of the names is none of the table's columns.
    #[tactic(auto, unfolding(crate::specs::UnknownName::names_unknown))]
    fn lacks_one(&self, names: &Names) -> bool
        requires { FindsColumns self.now.columns.now self.now.table.now }
        ensures { result ≡ names_unknown self.now.table.now names.now }
    {
        let names = names.as_slice();
        names.iter().any(|name| self.lacks(name))
    }

    fn lacks_given(&self, names: &Option<Names>) -> bool
        requires { FindsColumns self.now.columns.now self.now.table.now }
        ensures { result ≡ given_unknown self.now.table.now names.now }
    {
        match names {
            Some(names) => self.lacks_one(names),
            None => false,
        }
    }

    #[tactic(auto, unfolding(crate::specs::UnknownName::registration_unknown_on))]
    fn lacks_column_of(&self, g: &DraftRegistration) -> bool
        requires { FindsColumns self.now.columns.now self.now.table.now }
        ensures { result ≡ registration_unknown_on g.now self.now.table.now }
    {
        self.lacks_given(&g.columns) || (self.lacks_one(&g.pre) || self.lacks_one(&g.post))
    }

    fn lacks_source(&self, of: &Option<Text>) -> bool
        requires { FindsColumns self.now.columns.now self.now.table.now }
        ensures { result ≡ of_unknown of.now self.now.table.now }
    {
        match of {
            Some(name) => self.lacks(name),
            None => false,
        }
    }
}

#[tactic(auto, unfolding(crate::specs::UnknownName::rollup_unknown))]
fn rollup_unknown(draft: &Draft, index: &Index, rollup: &DraftRollup) -> bool
    requires { IsIndexOf draft.now index.now }
    ensures { result ≡ rollup_unknown draft.now rollup.now }
{
    match source_of(draft, index, rollup) {
        Some(found) => found.lacks_source(&rollup.of),
        None => true,
    }
}

#[tactic(auto, unfolding(crate::specs::UnknownName::column_unknown))]
fn column_unknown(draft: &Draft, index: &Index, table: &DraftTable, column: &DraftColumn) -> bool
    requires { IsIndexOf draft.now index.now }
    ensures { result ≡ column_unknown draft.now table.now column.now }
{
    match &column.form {
        DraftForm::Plain(_) => false,
        DraftForm::Lookup => index.lookups.get(&table.name, &column.name).is_none(),
        DraftForm::Rollup(rollup) => rollup_unknown(draft, index, rollup),
    }
}

fn is_lookup(form: &DraftForm) -> bool
    ensures { result ≡ is_lookup form.now }
{
    match form {
        DraftForm::Plain(_) => false,
        DraftForm::Lookup => true,
        DraftForm::Rollup(_) => false,
    }
}

#[tactic(auto, unfolding(crate::specs::UnknownName::names_lookup))]
fn names_lookup(draft: &Draft, index: &Index, r: &DraftRelationship) -> bool
    requires { IsIndexOf draft.now index.now }
    ensures { result ≡ names_lookup draft.now r.now }
{
    match column_named(draft, index, &r.child, &r.column) {
        Some(column) => is_lookup(&column.form),
        None => false,
    }
}

#[tactic(auto, unfolding(crate::specs::UnknownName::relationship_unknown))]
fn relationship_unknown(draft: &Draft, index: &Index, r: &DraftRelationship) -> bool
    requires { IsIndexOf draft.now index.now }
    ensures { result ≡ relationship_unknown draft.now r.now }
{
    match table_named(draft, index, &r.parent) {
        Some(_) => !names_lookup(draft, index, r),
        None => true,
    }
}

#[tactic(auto, unfolding(crate::specs::UnknownName::registration_unknown))]
fn registration_unknown(draft: &Draft, index: &Index, g: &DraftRegistration) -> bool
    requires { IsIndexOf draft.now index.now }
    ensures { result ≡ registration_unknown draft.now g.now }
{
    match table_named(draft, index, &g.table) {
        Some(found) => found.lacks_column_of(g),
        None => true,
    }
}

fn privilege_unknown(draft: &Draft, index: &Index, entry: &Entry) -> bool
    requires { IsIndexOf draft.now index.now }
    ensures { result ≡ privilege_unknown draft.now entry.now.table }
{
    match &entry.table {
        Some(name) => match table_named(draft, index, name) {
            Some(_) => false,
            None => true,
        },
        None => false,
    }
}

#[tactic(auto, unfolding(crate::specs::UnknownName::role_unknown))]
fn role_unknown(draft: &Draft, index: &Index, role: &Role) -> bool
    requires { IsIndexOf draft.now index.now }
    ensures { result ≡ role_unknown draft.now role.now }
{
    let entries = role.entries.as_slice();
    entries
        .iter()
        .any(|entry| privilege_unknown(draft, index, entry))
}

/// The first place that names what isn't there.
#[tactic(auto, unfolding(crate::specs::UnknownName::unknown_name))]
pub(crate) fn unknown_name(draft: &Draft, index: &Index) -> Option<Place>
    requires { IsIndexOf draft.now index.now }
    ensures { result ≡ unknown_name draft.now }
{
    if let Some(place) = unknown_in_tables(draft, index) {
        return Some(place);
    }
    if let Some(place) = unknown_in_relationships(draft, index) {
        return Some(place);
    }
    if let Some(place) = unknown_in_steps(draft, index) {
        return Some(place);
    }
    unknown_in_roles(draft, index)
}

#[tactic(auto, unfolding(crate::specs::UnknownName::unknown_in_tables))]
fn unknown_in_tables(draft: &Draft, index: &Index) -> Option<Place>
    requires { IsIndexOf draft.now index.now }
    ensures { result ≡ unknown_in_tables draft.now }
{
    unknown_in_each(draft, index, draft.tables.as_slice())
}

fn unknown_in_each(draft: &Draft, index: &Index, tables: &[DraftTable]) -> Option<Place>
    requires { IsIndexOf draft.now index.now }
    ensures { result ≡ first (unknown_in draft.now) tables.now }
{
    for (i, table) in tables.iter().enumerate() {
        if let Some(place) = unknown_in(draft, index, i, table) {
            return Some(place);
        }
    }
    None
}

#[tactic(auto, unfolding(crate::specs::UnknownName::unknown_in))]
fn unknown_in(draft: &Draft, index: &Index, i: usize, table: &DraftTable) -> Option<Place>
    requires { IsIndexOf draft.now index.now }
    ensures { result ≡ unknown_in draft.now i table.now }
{
    match first_unknown_column(draft, index, table) {
        Some(j) => Some(Place::Column(i, j)),
        None => None,
    }
}

fn first_unknown_column(draft: &Draft, index: &Index, table: &DraftTable) -> Option<usize>
    requires { IsIndexOf draft.now index.now }
    ensures { result ≡ position (column_unknown draft.now table.now) table.now.columns }
{
    let columns = table.columns.as_slice();
    columns
        .iter()
        .position(|column| column_unknown(draft, index, table, column))
}

#[tactic(auto, unfolding(crate::specs::UnknownName::unknown_in_relationships))]
fn unknown_in_relationships(draft: &Draft, index: &Index) -> Option<Place>
    requires { IsIndexOf draft.now index.now }
    ensures { result ≡ unknown_in_relationships draft.now }
{
    match first_unknown_relationship(draft, index) {
        Some(k) => Some(Place::Relationship(k)),
        None => None,
    }
}

fn first_unknown_relationship(draft: &Draft, index: &Index) -> Option<usize>
    requires { IsIndexOf draft.now index.now }
    ensures { result ≡ position (relationship_unknown draft.now) draft.now.relationships }
{
    let relationships = draft.relationships.as_slice();
    relationships
        .iter()
        .position(|r| relationship_unknown(draft, index, r))
}

#[tactic(auto, unfolding(crate::specs::UnknownName::unknown_in_steps))]
fn unknown_in_steps(draft: &Draft, index: &Index) -> Option<Place>
    requires { IsIndexOf draft.now index.now }
    ensures { result ≡ unknown_in_steps draft.now }
{
    match first_unknown_registration(draft, index) {
        Some(k) => Some(Place::Registration(k)),
        None => None,
    }
}

fn first_unknown_registration(draft: &Draft, index: &Index) -> Option<usize>
    requires { IsIndexOf draft.now index.now }
    ensures { result ≡ position (registration_unknown draft.now) draft.now.steps }
{
    let steps = draft.steps.as_slice();
    steps
        .iter()
        .position(|g| registration_unknown(draft, index, g))
}

#[tactic(auto, unfolding(crate::specs::UnknownName::unknown_in_roles))]
fn unknown_in_roles(draft: &Draft, index: &Index) -> Option<Place>
    requires { IsIndexOf draft.now index.now }
    ensures { result ≡ unknown_in_roles draft.now }
{
    match first_unknown_role(draft, index) {
        Some(k) => Some(Place::Role(k)),
        None => None,
    }
}

fn first_unknown_role(draft: &Draft, index: &Index) -> Option<usize>
    requires { IsIndexOf draft.now index.now }
    ensures { result ≡ position (role_unknown draft.now) draft.now.opening.roles }
{
    let roles = draft.opening.roles.as_slice();
    roles
        .iter()
        .position(|role| role_unknown(draft, index, role))
}
