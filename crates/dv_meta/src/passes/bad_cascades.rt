//! Fault BadCascade: a delete of the parent would empty a required column.
ghost use Rattle.std.specs.Prelude.{◌≡◌, Some, None, position};
ghost use Rattle.dv_schema.specs.declared.draft.Draft.{Draft};
ghost use Rattle.dv_meta.specs.Index.{IsIndexOf};
ghost use Rattle.dv_meta.specs.Relations.{empties, empties_required, bad_cascade};

use crate::index::Index;
use crate::index::lookup::column_named;
use dv_schema::{Cascade, Draft, DraftRelationship, Place};

fn empties(cascade: Cascade) -> bool
    ensures { result ≡ empties cascade }
{
    match cascade {
        Cascade::RemoveLink => true,
        _ => false,
    }
}

#[tactic(auto, unfolding(crate::specs::Relations::empties_required))]
fn empties_required(draft: &Draft, index: &Index, r: &DraftRelationship) -> bool
    requires { IsIndexOf draft.now index.now }
    ensures { result ≡ empties_required draft.now r.now }
{
    if !empties(r.delete) {
        return false;
    }
    match column_named(draft, index, &r.child, &r.column) {
        Some(column) => column.required,
        None => false,
    }
}

/// The first relationship that empties a required column when its parent goes.
#[tactic(auto, unfolding(crate::specs::Relations::bad_cascade))]
pub(crate) fn bad_cascade(draft: &Draft, index: &Index) -> Option<Place>
    requires { IsIndexOf draft.now index.now }
    ensures { result ≡ bad_cascade draft.now }
{
    match first_emptying(draft, index) {
        Some(k) => Some(Place::Relationship(k)),
        None => None,
    }
}

fn first_emptying(draft: &Draft, index: &Index) -> Option<usize>
    requires { IsIndexOf draft.now index.now }
    ensures { result ≡ position (empties_required draft.now) draft.now.relationships }
{
    let relationships = draft.relationships.as_slice();
    relationships
        .iter()
        .position(|r| empties_required(draft, index, r))
}
