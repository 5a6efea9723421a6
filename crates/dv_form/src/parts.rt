//! The first fault of values whose parts have no parts: raw values, tuples, distinct integers.

ghost use Rattle.std.specs.Prelude.{◌≡◌, map, option_map, IfOk, ℤ, List, ◌∷◌, ◌||◌, IsTrue, OnOk, not};
ghost use Rattle.serde_json.specs.View.{items_view, members_view, view};
ghost use Rattle.dv_form.specs.LocalFaults.{local_of};
ghost use Rattle.dv_form.specs.Schemas.{spelling_of};
ghost use Rattle.dv_form.specs.Walk as walk;
ghost use Rattle.std.specs.BTreeSet.{contains};
ghost use Rattle.std.specs.Ordering.{int_cmp, int_eq};
ghost use Rattle.serde_json.specs.Data.{Data};
ghost use Rattle.dv_form.specs.Integers.{AreIn};

use crate::fault::FaultKind;
use crate::local_fault::LocalFault;
use crate::members::{integer_in, is_short};
use crate::spelling::{Spelling, is_raw};
use serde_json::{Map, Value as Json};
use std::alloc::{AllocError, Global};
use std::collections::BTreeSet;

/// The first member of an object that isn't a raw value.
pub(crate) fn raw_values_fault(
    alloc: Global,
    members: &Map<String, Json>,
) -> Result<Option<LocalFault>, AllocError>
    ensures { IfOk result (λ found. found
        ≡ option_map local_of (walk.raw_values_fault (members_view members.now.entries))) }
{
    for (name, json) in members.iter() {
        if !is_raw(json) {
            return Ok(Some(LocalFault::here(alloc, FaultKind::Wrong).inside_member(
                alloc,
                name.as_str(),
            )?));
        }
    }
    Ok(None)
}

/// The first fault of a list of as many items as there are spellings, each in its own.
#[tactic(auto, unfolding(crate::specs::Walk::tuple_fault))]
pub(crate) fn tuple_fault(
    alloc: Global,
    items: &[Json],
    spellings: &[Spelling],
) -> Result<Option<LocalFault>, AllocError>
    ensures { IfOk result (λ found. found ≡ option_map local_of
        (walk.tuple_fault (map spelling_of spellings.now) (items_view items.now))) }
{
    if items.len() != spellings.len() {
        return Ok(Some(LocalFault::here(alloc, FaultKind::Wrong)));
    }
    for (at, spelling) in spellings.iter().enumerate() {
        if !spelling.admits(&items[at]) {
            return Ok(Some(LocalFault::here(alloc, FaultKind::Wrong).inside_item(alloc, at)?));
        }
    }
    Ok(None)
}

/// The first fault of a list of at least one integer of 32 bits, no two of them equal.
pub(crate) fn distinct_fault(
    alloc: Global,
    items: &[Json],
) -> Result<Option<LocalFault>, AllocError>
    ensures { IfOk result (λ found. found
        ≡ option_map local_of (walk.distinct_fault (items_view items.now))) }
{
    if items.is_empty() {
        return Ok(Some(LocalFault::here(alloc, FaultKind::Wrong)));
    }
    let mut before = BTreeSet::new(alloc);
    for (at, item) in items.iter().enumerate() {
        if !is_new_integer(&mut before, item)? {
            return Ok(Some(LocalFault::here(alloc, FaultKind::Wrong).inside_item(alloc, at)?));
        }
    }
    Ok(None)
}

// Whether a value is an integer of 32 bits that isn't among the earlier ones, which it joins.
fn is_new_integer(before: &mut BTreeSet<i64>, item: &Json) -> Result<bool, AllocError>
    ensures { (earlier : List Data) → AreIn before.old earlier
        → IfOk result (λ is_new. (is_new ≡ walk.is_new_integer earlier (view item.now))
        × (IsTrue is_new → AreIn before.new (view item.now ∷ earlier))) }
{
    match integer_in(item) {
        Some(n) => {
            if !is_short(n) {
                return Ok(false);
            }
            Ok(add(before, n)?)
        }
        None => Ok(false),
    }
}

// Adds an integer to a set, and tells whether it is new there.
fn add(before: &mut BTreeSet<i64>, n: i64) -> Result<bool, AllocError>
    ensures answer { IfOk result (λ is_new. is_new ≡ not (contains int_cmp before.old n)) }
    ensures set { OnOk result ((m : ℤ) →
        contains int_cmp before.new m ≡ (int_eq n m || contains int_cmp before.old m)) }
{
    Ok(before.insert(n)?)
}
