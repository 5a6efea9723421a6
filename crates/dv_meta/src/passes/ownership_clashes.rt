//! Fault OwnershipClash: a parental relationship where a table has no owners.
ghost use Rattle.std.specs.Prelude.{◌≡◌, Some, None, position};
ghost use Rattle.dv_schema.specs.declared.draft.Draft.{Draft};
ghost use Rattle.dv_meta.specs.Index.{IsIndexOf};
ghost use Rattle.dv_meta.specs.Relations.{is_parental, has_no_owners, clashes, ownership_clash};

use crate::index::Index;
use crate::index::lookup::table_named;
use crate::passes::second_parents::is_parental;
use dv_schema::{Draft, DraftRelationship, Place};
use dv_value::Text;

#[tactic(auto, unfolding(crate::specs::Relations::has_no_owners))]
fn has_no_owners(draft: &Draft, index: &Index, name: &Text) -> bool
    requires { IsIndexOf draft.now index.now }
    ensures { result ≡ has_no_owners draft.now name.now }
{
    match table_named(draft, index, name) {
        Some(found) => !found.table.user_owned,
        None => false,
    }
}

#[tactic(auto, unfolding(crate::specs::Relations::clashes))]
fn clashes(draft: &Draft, index: &Index, r: &DraftRelationship) -> bool
    requires { IsIndexOf draft.now index.now }
    ensures { result ≡ clashes draft.now r.now }
{
    if !is_parental(r) {
        return false;
    }
    has_no_owners(draft, index, &r.parent) || has_no_owners(draft, index, &r.child)
}

/// The first relationship that passes ownership or shares on to a table without owners, or from one.
#[tactic(auto, unfolding(crate::specs::Relations::ownership_clash))]
pub(crate) fn ownership_clash(draft: &Draft, index: &Index) -> Option<Place>
    requires { IsIndexOf draft.now index.now }
    ensures { result ≡ ownership_clash draft.now }
{
    match first_clash(draft, index) {
        Some(k) => Some(Place::Relationship(k)),
        None => None,
    }
}

fn first_clash(draft: &Draft, index: &Index) -> Option<usize>
    requires { IsIndexOf draft.now index.now }
    ensures { result ≡ position (clashes draft.now) draft.now.relationships }
{
    let relationships = draft.relationships.as_slice();
    relationships.iter().position(|r| clashes(draft, index, r))
}
