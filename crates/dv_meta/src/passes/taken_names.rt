//! Fault NameTaken: two tables, relationships or columns have one name, or two relationships one column.
ghost use Rattle.std.specs.Prelude.{◌≡◌, ◌≤◌, [], ◌∷◌, List, Some, length, slice_get, position, IfOk};
ghost use Rattle.std.specs.List.{list_any, enumerate_from};
ghost use Rattle.dv_schema.specs.declared.draft.Draft.{Draft};
ghost use Rattle.dv_schema.specs.declared.draft.DraftTable.{DraftTable};
ghost use Rattle.dv_meta.specs.Columns.{system_names, names_by, names_of};
ghost use Rattle.dv_meta.specs.Index.{Finds, FindsColumns, IsIndexOf, IsTakenAt, TellsBefore};
ghost use Rattle.dv_schema.specs.Limits.{IsWithinLimits};
ghost use Rattle.dv_schema.specs.Names.{Name, stands_before};
ghost use Rattle.dv_meta.specs.NameTaken.{taken_in, taken_at_table, takes_column, taken_in_tables, taken_in_relationships, name_taken};

use crate::index::Index;
use crate::index::lookup::table_at;
use crate::index::names::Numbers;
use crate::index::table_columns::Columns;
use crate::spelling::with_ending;
use dv_schema::{Draft, DraftColumn, DraftForm, DraftRelationship, DraftTable, Place};
use dv_value::Text;
use std::alloc::{AllocError, Global};

// Whether a name has an earlier place.
fn stands_before(numbers: &Numbers, place: usize, name: &Text) -> bool
    ensures { (ns : List Name) → Finds numbers.now ns → result ≡ stands_before ns place name.now }
{
    match numbers.get(name) {
        Some(k) => k < place,
        None => false,
    }
}

// How many columns every table has.
#[tactic(auto, unfolding(crate::specs::Columns::system_columns))]
fn system_count(user_owned: bool) -> usize
    ensures { result ≡ length (system_names user_owned) }
{
    if user_owned { 8 } else { 7 }
}

// How many names a column takes.
fn names_count(form: &DraftForm) -> usize
    ensures count { (name : Name) → result ≡ length (names_by form.now name) }
    ensures few { result ≤ 3 }
{
    match form {
        DraftForm::Plain(_) => 1,
        DraftForm::Lookup => 1,
        DraftForm::Rollup(_) => 3,
    }
}

// Whether one of three names has an earlier place.
fn one_stands_before(numbers: &Numbers, place: usize, a: &Text, b: &Text, c: &Text) -> bool
    ensures { TellsBefore numbers.now place (a.now ∷ b.now ∷ c.now ∷ []) result }
{
    stands_before(numbers, place, a)
        || (stands_before(numbers, place, b) || stands_before(numbers, place, c))
}

// Whether one of a column's names has an earlier place.
fn takes_name(
    alloc: Global,
    columns: &Columns,
    number: usize,
    column: &DraftColumn,
) -> Result<bool, AllocError>
    ensures { IfOk result (TellsBefore columns.now.all number (names_of column.now)) }
{
    let name = &column.name;
    match &column.form {
        DraftForm::Plain(_) => Ok(stands_before(&columns.all, number, name)),
        DraftForm::Lookup => Ok(stands_before(&columns.all, number, name)),
        DraftForm::Rollup(_) => {
            let state = with_ending(alloc, name, "_state")?;
            let date = with_ending(alloc, name, "_date")?;
            Ok(one_stands_before(&columns.all, number, name, &state, &date))
        }
    }
}

// The first column of a table that takes a name.
fn taken_in(
    alloc: Global,
    table: &DraftTable,
    columns: &Columns,
) -> Result<Option<usize>, AllocError>
    requires finds { FindsColumns columns.now table.now }
    requires few { length table.now.columns ≤ 60 }
    ensures { IfOk result (λ j. j ≡ taken_in table.now) }
{
    let listed = table.columns.as_slice();
    let mut number = system_count(table.user_owned);
    for (j, column) in listed.iter().enumerate() {
        if takes_name(alloc, columns, number, column)? {
            return Ok(Some(j));
        }
        number += names_count(&column.form);
    }
    Ok(None)
}

// The table at a place where its name is taken, or else its first column that takes a name.
#[tactic(auto, unfolding(crate::specs::NameTaken::taken_at_table))]
fn taken_at(
    alloc: Global,
    draft: &Draft,
    index: &Index,
    i: usize,
) -> Result<Option<Place>, AllocError>
    requires index { IsIndexOf draft.now index.now }
    requires limits { IsWithinLimits draft.now }
    ensures { IfOk result (IsTakenAt draft.now i) }
{
    match table_at(draft, index, i) {
        Some(found) => {
            if stands_before(&index.tables, i, &found.table.name) {
                return Ok(Some(Place::Table(i)));
            }
            match taken_in(alloc, found.table, found.columns)? {
                Some(j) => Ok(Some(Place::Column(i, j))),
                None => Ok(None),
            }
        }
        None => Ok(None),
    }
}

#[tactic(auto, unfolding(crate::specs::NameTaken::taken_in_tables))]
fn taken_in_tables(alloc: Global, draft: &Draft, index: &Index) -> Result<Option<Place>, AllocError>
    requires index { IsIndexOf draft.now index.now }
    requires limits { IsWithinLimits draft.now }
    ensures { IfOk result (λ place. place ≡ taken_in_tables draft.now) }
{
    for i in 0..draft.tables.len() {
        if let Some(place) = taken_at(alloc, draft, index, i)? {
            return Ok(Some(place));
        }
    }
    Ok(None)
}

#[tactic(auto, unfolding(crate::specs::NameTaken::takes_column))]
fn takes_column(index: &Index, k: usize, r: &DraftRelationship) -> bool
    ensures { (draft : Draft) → IsIndexOf draft index.now → result ≡ takes_column draft (k, r.now) }
{
    if stands_before(&index.relationships, k, &r.name) {
        return true;
    }
    match index.lookups.get(&r.child, &r.column) {
        Some(j) => j < k,
        None => false,
    }
}

fn first_taken_relationship(draft: &Draft, index: &Index) -> Option<usize>
    requires { IsIndexOf draft.now index.now }
    ensures { result ≡ position (takes_column draft.now)
        (enumerate_from 0 draft.now.relationships) }
{
    let relationships = draft.relationships.as_slice();
    relationships
        .iter()
        .enumerate()
        .position(|(k, r)| takes_column(index, k, r))
}

#[tactic(auto, unfolding(crate::specs::NameTaken::taken_in_relationships))]
fn taken_in_relationships(draft: &Draft, index: &Index) -> Option<Place>
    requires { IsIndexOf draft.now index.now }
    ensures { result ≡ taken_in_relationships draft.now }
{
    match first_taken_relationship(draft, index) {
        Some(k) => Some(Place::Relationship(k)),
        None => None,
    }
}

/// The first place that takes a name.
#[tactic(auto, unfolding(crate::specs::NameTaken::name_taken))]
pub(crate) fn name_taken(
    alloc: Global,
    draft: &Draft,
    index: &Index,
) -> Result<Option<Place>, AllocError>
    requires index { IsIndexOf draft.now index.now }
    requires limits { IsWithinLimits draft.now }
    ensures { IfOk result (λ place. place ≡ name_taken draft.now) }
{
    match taken_in_tables(alloc, draft, index)? {
        Some(place) => Ok(Some(place)),
        None => Ok(taken_in_relationships(draft, index)),
    }
}
