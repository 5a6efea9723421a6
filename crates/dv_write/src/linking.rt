//! The checks of the lookups that an update gives: the right to append, and that no row comes to be above itself.
ghost use Rattle.std.specs.Prelude.{◌≡◌};
ghost use Rattle.std.specs.Option.{option_copied};
ghost use Rattle.dv_schema.specs.declared.opening.Action.TheVariants as action;
ghost use Rattle.dv_schema.specs.Sound.{is_parental, relationship_at};
ghost use Rattle.dv_cascade.specs.Sound.{IsSoundWorld};
ghost use Rattle.dv_message.specs.Checked.{Answers, Both};
ghost use Rattle.dv_message.specs.Lookups.{AppendSays, AppendToSays};
ghost use Rattle.dv_message.specs.Rights.{RightSays};
ghost use Rattle.dv_message.specs.Scenes.{targeted_in};
ghost use Rattle.dv_write.specs.Updating.{CircleSays, LookupSays, OfRelationship, ParentSays};

use dv_cascade::{is_parental, would_circle};
use dv_message::{Naming, Stop, Target, check_append_to, check_right};
use dv_refusal::Refusal;
use dv_schema::{Action, Definition, Relationship};
use dv_store::{RowKey, Store};
use sqlite_items::at;
use std::alloc::Global;

/// Checks that the user may append the row to others, that a row which it is given is there, and that the user may append
/// to that.
fn check_one_append(
    alloc: Global,
    store: &Store,
    target: &Target<'_>,
    naming: Naming,
) -> Result<(), Stop>
    ensures { Answers (Both
        (RightSays (targeted_in store.now.present target.now) action.Append)
        (AppendToSays (targeted_in store.now.present target.now) naming)) result }
{
    match check_right(alloc, store, target, Action::Append) {
        Ok(()) => check_append_to(alloc, store, target, naming),
        Err(stop) => Err(stop),
    }
}

/// Checks that the user may append the row to each row that its lookups are given, up to the first that fails.
#[tactic(auto, unfolding(dv_message::specs::Lookups::AppendSays, dv_message::specs::Checked::AllPass, dv_message::specs::Checked::FirstSays))]
pub(crate) fn check_append(
    alloc: Global,
    store: &Store,
    target: &Target<'_>,
    named: &[Naming],
) -> Result<(), Stop>
    ensures { Answers (AppendSays
        (RightSays (targeted_in store.now.present target.now) action.Append)
        (targeted_in store.now.present target.now) named.now) result }
{
    for naming in named {
        match check_one_append(alloc, store, target, *naming) {
            Ok(()) => {}
            Err(stop) => return Err(stop),
        }
    }
    Ok(())
}

/// Checks that a parent is neither a row itself nor below it.
fn check_parent(
    alloc: Global,
    store: &Store,
    definition: &Definition,
    key: RowKey,
    parent: RowKey,
    relationship: &Relationship,
) -> Result<(), Stop>
    requires sound { IsSoundWorld definition.now store.now.present }
    ensures { Answers (ParentSays store.now.present definition.now key parent relationship.now)
        result }
{
    if would_circle(store, definition, key, parent) {
        return Err(Stop::Refused(Refusal::Circular {
            relationship: relationship.name.copy(alloc)?,
        }));
    }
    Ok(())
}

/// Checks the same of a row that a lookup names, if the lookup is parental.
fn check_lookup(
    alloc: Global,
    store: &Store,
    definition: &Definition,
    key: RowKey,
    parent: RowKey,
    relationship: &Relationship,
) -> Result<(), Stop>
    requires sound { IsSoundWorld definition.now store.now.present }
    ensures { Answers (LookupSays store.now.present definition.now key parent relationship.now
        (is_parental relationship.now)) result }
{
    if !is_parental(relationship) {
        return Ok(());
    }
    check_parent(alloc, store, definition, key, parent, relationship)
}

/// Checks the same of a row that a lookup names by its relationship's number.
fn check_naming(
    alloc: Global,
    store: &Store,
    definition: &Definition,
    key: RowKey,
    naming: Naming,
) -> Result<(), Stop>
    requires sound { IsSoundWorld definition.now store.now.present }
    ensures { Answers (OfRelationship store.now.present definition.now key naming.parent
        (relationship_at definition.now naming.relationship)) result }
{
    match at(definition.relationships(), usize::from(naming.relationship)) {
        None => Ok(()),
        Some(relationship) => {
            check_lookup(alloc, store, definition, key, naming.parent, relationship)
        }
    }
}

/// Checks that no lookup puts a row above itself, up to the first that would.
#[tactic(auto, unfolding(crate::specs::Updating::CircleSays, dv_message::specs::Checked::AllPass, dv_message::specs::Checked::FirstSays))]
pub(crate) fn check_circle(
    alloc: Global,
    store: &Store,
    definition: &Definition,
    key: RowKey,
    named: &[Naming],
) -> Result<(), Stop>
    requires sound { IsSoundWorld definition.now store.now.present }
    ensures { Answers (CircleSays store.now.present definition.now key named.now) result }
{
    for naming in named {
        match check_naming(alloc, store, definition, key, *naming) {
            Ok(()) => {}
            Err(stop) => return Err(stop),
        }
    }
    Ok(())
}
