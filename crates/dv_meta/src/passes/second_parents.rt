//! Fault SecondParent: a table is the child of a second parental relationship.
ghost use Rattle.std.specs.Prelude.{◌≡◌, ◌&&◌, Some, None, if◌then◌else◌, position, IfOk, OnOk};
ghost use Rattle.std.specs.List.{enumerate_from};
ghost use Rattle.std.specs.Option.{option_or};
ghost use Rattle.dv_schema.specs.declared.draft.Draft.{Draft};
ghost use Rattle.dv_schema.specs.Names.{Name, same_name};
ghost use Rattle.dv_schema.specs.Sound.{hands_on};
ghost use Rattle.dv_meta.specs.Index.{AddsIf, FindsParents};
ghost use Rattle.dv_meta.specs.Numbers.{number_in};
ghost use Rattle.dv_meta.specs.Relations.{is_parental, parental_of, is_second, second_parent};

use crate::index::names::Numbers;
use dv_schema::{Cascade, Draft, DraftRelationship, Place};
use std::alloc::{AllocError, Global};

fn hands_on(cascade: Cascade) -> bool
    ensures { result ≡ hands_on cascade }
{
    match cascade {
        Cascade::NoCascade => false,
        _ => true,
    }
}

/// Whether assignments, shares, their end or new parents are handed on.
#[tactic(auto, unfolding(crate::specs::Relations::is_parental))]
pub(crate) fn is_parental(r: &DraftRelationship) -> bool
    ensures { result ≡ is_parental r.now }
{
    hands_on(r.assign) || (hands_on(r.share) || (hands_on(r.unshare) || hands_on(r.reparent)))
}

// For each child its first parental relationship.
fn parental_numbers(
    alloc: Global,
    relationships: &[DraftRelationship],
) -> Result<Numbers, AllocError>
    ensures { IfOk result (λ numbers. FindsParents numbers relationships.now) }
{
    let mut numbers = Numbers::new(alloc);
    for (k, r) in relationships.iter().enumerate() {
        add_parental(alloc, &mut numbers, k, r)?;
    }
    Ok(numbers)
}

fn add_parental(
    alloc: Global,
    numbers: &mut Numbers,
    k: usize,
    r: &DraftRelationship,
) -> Result<(), AllocError>
    ensures { OnOk result (AddsIf (is_parental r.now) numbers.old numbers.new r.now.child k) }
{
    if is_parental(r) {
        numbers.add(r.child.copy(alloc)?, k)?;
    }
    Ok(())
}

#[tactic(auto, unfolding(crate::specs::Relations::is_second))]
fn is_second(parents: &Numbers, k: usize, r: &DraftRelationship) -> bool
    ensures { (d : Draft) → FindsParents parents.now d.relationships
        → result ≡ is_second d (k, r.now) }
{
    if !is_parental(r) {
        return false;
    }
    match parents.get(&r.child) {
        Some(j) => j < k,
        None => false,
    }
}

/// The first relationship that is its child's second parental one.
#[tactic(auto, unfolding(crate::specs::Relations::second_parent))]
pub(crate) fn second_parent(alloc: Global, draft: &Draft) -> Result<Option<Place>, AllocError>
    ensures { IfOk result (λ place. place ≡ second_parent draft.now) }
{
    let parents = parental_numbers(alloc, draft.relationships.as_slice())?;
    match first_second(draft, &parents) {
        Some(k) => Ok(Some(Place::Relationship(k))),
        None => Ok(None),
    }
}

fn first_second(draft: &Draft, parents: &Numbers) -> Option<usize>
    requires { FindsParents parents.now draft.now.relationships }
    ensures { result ≡ position (is_second draft.now) (enumerate_from 0 draft.now.relationships) }
{
    let relationships = draft.relationships.as_slice();
    relationships
        .iter()
        .enumerate()
        .position(|(k, r)| is_second(parents, k, r))
}
