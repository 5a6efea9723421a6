//! Whether a new parent would put a row above itself.
ghost use Rattle.std.specs.Prelude.{◌≡◌, ◌↔◌, IsTrue, Some, find};
ghost use Rattle.std.specs.FinMap as map;
ghost use Rattle.std.specs.Option.{option_copied};
ghost use Rattle.dv_schema.specs.Definitions.{relationships_of};
ghost use Rattle.dv_schema.specs.Sound.{hands_on, is_parental};
ghost use Rattle.dv_store.specs.Keys.{is_row};
ghost use Rattle.dv_store.specs.Shapes.{place_of};
ghost use Rattle.dv_store.specs.World.{named_in};
ghost use Rattle.dv_cascade.specs.Chains.{Reaches};
ghost use Rattle.dv_cascade.specs.Circles.{is_parental_of, named_by, parent_of, HasNoCircle, HasOneParent, IsUnderParent};

use dv_schema::{Cascade, Definition, Relationship};
use dv_store::{RowKey, Store, named_at};
use dv_value::Id;

/// Whether a cascade is one at all.
fn hands_on(cascade: Cascade) -> bool
    ensures { result ≡ hands_on cascade }
{
    cascade != Cascade::NoCascade
}

/// Whether a relationship is parental: an assignment, a share, the end of one or a new parent is handed on.
pub fn is_parental(relationship: &Relationship) -> bool
    ensures { result ≡ is_parental relationship.now }
{
    if hands_on(relationship.assign) || hands_on(relationship.share) {
        return true;
    }
    hands_on(relationship.unshare) || hands_on(relationship.reparent)
}

/// Whether a relationship is the parental one of a child table.
fn is_parental_of(relationship: &Relationship, table: u16) -> bool
    ensures { result ≡ is_parental_of table relationship.now }
{
    is_parental(relationship) && relationship.child == table
}

/// The parental relationship of a child table, if it has one.
pub fn parental_of(definition: &Definition, table: u16) -> Option<&Relationship>
    ensures { option_copied result ≡ find (is_parental_of table) (relationships_of definition.now) }
{
    definition
        .relationships()
        .iter()
        .find(|relationship| is_parental_of(relationship, table))
}

/// The place of a column's value among those of a row.
fn place_of(column: u16) -> u16
    ensures { result ≡ place_of column }
{
    if column > 2 { column - 1 } else { column }
}

/// The id that a row, if it is there, names by a lookup.
fn named_in(store: &Store, key: RowKey, column: u16) -> Option<Id>
    ensures { result ≡ named_in (map.get store.now.present.rows key) (place_of column) }
{
    match store.row(key.table, key.id) {
        Some(row) => named_at(row, usize::from(place_of(column))),
        None => None,
    }
}

/// The row that a row names by a relationship.
fn named_by(store: &Store, key: RowKey, relationship: Option<&Relationship>) -> Option<RowKey>
    ensures { result ≡ named_by store.now.present key (option_copied relationship.entry) }
{
    let relationship = relationship?;
    let id = named_in(store, key, relationship.column)?;
    Some(RowKey {
        table: relationship.parent,
        id,
    })
}

/// The row that a row names by the parental relationship of its table: where a table is the child of at most one, the
/// row that it is under.
#[tactic(auto, unfolding(crate::specs::Circles::parent_of))]
pub fn parent_of(store: &Store, definition: &Definition, key: RowKey) -> Option<RowKey>
    ensures value { result ≡ parent_of store.now.present definition.now key }
    ensures under { HasOneParent definition.now → (parent : RowKey)
        → (result ≡ Some parent) ↔ IsUnderParent store.now.present definition.now key parent }
{
    named_by(store, key, parental_of(definition, key.table))
}

/// Whether two places are one row's.
fn is_row(a: RowKey, b: RowKey) -> bool
    ensures { result ≡ is_row a b }
{
    a == b
}

/// Whether a row would be above itself if it got a parent: whether it is that parent, or above it by parental links.
/// It takes no memory.
///
/// A table is the child of at most one parental relationship, and no row of the store is above itself.
pub fn would_circle(store: &Store, definition: &Definition, row: RowKey, parent: RowKey) -> bool
    requires one_parent { HasOneParent definition.now }
    requires no_circle { HasNoCircle store.now.present definition.now }
    ensures { IsTrue result ↔ Reaches (IsUnderParent store.now.present definition.now) parent row }
{
    let mut above = parent;
    'parents: while !is_row(above, row) {
        match parent_of(store, definition, above) {
            Some(next) => above = next,
            None => return false,
        }
    }
    true
}
