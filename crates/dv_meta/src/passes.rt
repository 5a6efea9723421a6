//! The passes over a well-formed text, one file for each kind of fault, in the order in which they are asked.
ghost use Rattle.std.specs.Prelude.{◌≡◌, None, IfOk};
ghost use Rattle.dv_meta.specs.Faults.{first_fault};
ghost use Rattle.dv_meta.specs.Index.{IsIndexOf};
ghost use Rattle.dv_schema.specs.Limits.{IsWithinLimits};

mod bad_cascades;
mod bad_rollups;
mod opening_directory;
mod ownership_clashes;
mod second_parents;
mod taken_names;
mod unknown_names;
mod unknown_steps;

use crate::index::Index;
use bad_cascades::bad_cascade;
use bad_rollups::bad_rollup;
use dv_schema::{DefKind, Draft, Place};
use opening_directory::bad_directory;
use ownership_clashes::ownership_clash;
use second_parents::second_parent;
use std::alloc::{AllocError, Global};
use taken_names::name_taken;
use unknown_names::unknown_name;
use unknown_steps::unknown_step;

/// A fault of a definition: its kind and the item that has it.
#[derive(Clone, Copy)]
pub(crate) struct Fault {
    pub(crate) kind: DefKind,
    pub(crate) place: Place,
}

// The place of a fault of a kind.
fn found(kind: DefKind, place: Place) -> Fault
    ensures { result ≡ record { kind = kind; place = place } }
{
    Fault { kind, place }
}

/// The first fault that the passes after the walk find.
#[tactic(auto, unfolding(crate::specs::Faults::first_fault))]
pub(crate) fn first_fault(
    alloc: Global,
    draft: &Draft,
    index: &Index,
    steps: usize,
) -> Result<Option<Fault>, AllocError>
    requires index { IsIndexOf draft.now index.now }
    requires limits { IsWithinLimits draft.now }
    ensures { IfOk result (λ fault. fault ≡ first_fault draft.now steps) }
{
    if let Some(place) = name_taken(alloc, draft, index)? {
        return Ok(Some(found(DefKind::NameTaken, place)));
    }
    if let Some(place) = unknown_name(draft, index) {
        return Ok(Some(found(DefKind::UnknownName, place)));
    }
    if let Some(place) = bad_cascade(draft, index) {
        return Ok(Some(found(DefKind::BadCascade, place)));
    }
    if let Some(place) = ownership_clash(draft, index) {
        return Ok(Some(found(DefKind::OwnershipClash, place)));
    }
    if let Some(place) = second_parent(alloc, draft)? {
        return Ok(Some(found(DefKind::SecondParent, place)));
    }
    if let Some(place) = bad_rollup(draft, index) {
        return Ok(Some(found(DefKind::BadRollup, place)));
    }
    if let Some(place) = unknown_step(draft, steps) {
        return Ok(Some(found(DefKind::UnknownStep, place)));
    }
    match bad_directory(alloc, draft, index)? {
        Some(place) => Ok(Some(found(DefKind::BadDirectory, place))),
        None => Ok(None),
    }
}
