//! The walk over a JSON value that finds its first fault.

ghost use Rattle.std.specs.Prelude.{◌≡◌, Some, map, option_map, IfOk};
ghost use Rattle.serde_json.specs.View.{view, items_view, members_view};
ghost use Rattle.dv_form.specs.Forms.{object_of, list_of};
ghost use Rattle.dv_form.specs.LocalFaults.{local_of, fault_of};
ghost use Rattle.dv_form.specs.Members.{members_in};
ghost use Rattle.dv_form.specs.Schemas.{form_of, member_of, schema_of};
ghost use Rattle.dv_form.specs.Walk as walk;
ghost use Rattle.dv_form.specs.Places.{into_member};

use crate::fault::{Fault, FaultKind};
use crate::form::{Form, Grammar, Member, Schema};
use crate::local_fault::LocalFault;
use crate::parts::{distinct_fault, raw_values_fault, tuple_fault};
use crate::schema::{further, is_excluded, unlisted_fault};
use serde_json::Value as Json;
use std::alloc::{AllocError, Global};

/// The first fault of a JSON value as an object of a kind, by the schemas of its grammar: in an object, first the
/// members that its schema doesn't list, in byte order; then the members of the schema in its order, each missing,
/// excluded or not of its form, and inside each one its own parts.
pub fn first_fault<G: Grammar>(
    alloc: Global,
    json: &Json,
    kind: G,
) -> Result<Option<Fault>, AllocError>
    ensures { IfOk result (λ fault. fault
        ≡ option_map fault_of (walk.first_fault G.schemas (view json.now) (object_of kind))) }
{
    match value_fault(alloc, json, &Form::Object(kind))? {
        Some(found) => Ok(Some(found.into_fault())),
        None => Ok(None),
    }
}

// The first fault of a value under a form.
#[cycle(walk)]
fn value_fault<G: Grammar>(
    alloc: Global,
    json: &Json,
    form: &Form<G>,
) -> Result<Option<LocalFault>, AllocError>
    ensures { IfOk result (λ found. found
        ≡ option_map local_of (walk.first_fault G.schemas (view json.now) (form_of form.now))) }
{
    match form {
        Form::Value(spelling) => Ok(wrong_unless(alloc, spelling.admits(json))),
        Form::RawValues => match json.as_object() {
            Some(members) => raw_values_fault(alloc, members),
            None => Ok(wrong_unless(alloc, false)),
        },
        Form::Object(kind) => match json.as_object() {
            Some(_) => object_fault(alloc, json, &kind.schema()),
            None => Ok(wrong_unless(alloc, false)),
        },
        Form::Tuple(spellings) => match json.as_array() {
            Some(items) => tuple_fault(alloc, items.as_slice(), spellings),
            None => Ok(wrong_unless(alloc, false)),
        },
        Form::Values(spelling, most) => list_fault::<G>(
            alloc,
            json,
            &Form::Value(*spelling),
            *most,
        ),
        Form::Objects(kind, most) => list_fault::<G>(alloc, json, &Form::Object(*kind), *most),
        Form::Tuples(spellings, most) => list_fault::<G>(
            alloc,
            json,
            &Form::Tuple(spellings),
            *most,
        ),
        Form::DistinctIntegers => match json.as_array() {
            Some(items) => distinct_fault(alloc, items.as_slice()),
            None => Ok(wrong_unless(alloc, false)),
        },
    }
}

// The first fault of a value as a list of at most so many items of a form.
#[cycle(walk)]
fn list_fault<G: Grammar>(
    alloc: Global,
    json: &Json,
    form: &Form<G>,
    most: Option<usize>,
) -> Result<Option<LocalFault>, AllocError>
    ensures { IfOk result (λ found. found ≡ option_map local_of
        (walk.first_fault G.schemas (view json.now) (list_of (form_of form.now) most))) }
{
    match json.as_array() {
        Some(items) => {
            let items = items.as_slice();
            if is_over(most, items.len()) {
                return Ok(Some(LocalFault::here(alloc, FaultKind::TooLong)));
            }
            items_fault(alloc, items, form)
        }
        None => Ok(wrong_unless(alloc, false)),
    }
}

// The first fault of the items of a list.
#[cycle(walk)]
fn items_fault<G: Grammar>(
    alloc: Global,
    items: &[Json],
    form: &Form<G>,
) -> Result<Option<LocalFault>, AllocError>
    ensures { IfOk result (λ found. found ≡ option_map local_of
        (walk.items_fault G.schemas (items_view items.now) 0 (form_of form.now))) }
{
    for (at, item) in items.iter().enumerate() {
        if let Some(found) = value_fault(alloc, item, form)? {
            return Ok(Some(found.inside_item(alloc, at)?));
        }
    }
    Ok(None)
}

// The first fault of an object against its schema.
#[cycle(walk)]
fn object_fault<G: Grammar>(
    alloc: Global,
    json: &Json,
    schema: &Schema<G>,
) -> Result<Option<LocalFault>, AllocError>
    ensures { IfOk result (λ found. found ≡ option_map local_of
        (walk.object_fault (schema_of schema.now) (view json.now)
        (walk.fault_at G.schemas (members_in (view json.now))))) }
{
    let Some(more) = further(json, schema) else {
        return members_fault(alloc, json, schema.members);
    };
    if let Some(found) = unlisted_fault(alloc, json, schema.members, more)? {
        return Ok(Some(found));
    }
    if let Some(found) = members_fault(alloc, json, schema.members)? {
        return Ok(Some(found));
    }
    members_fault(alloc, json, more)
}

// The first fault of the members of a schema, in its order.
#[cycle(walk)]
fn members_fault<G: Grammar>(
    alloc: Global,
    json: &Json,
    members: &[Member<G>],
) -> Result<Option<LocalFault>, AllocError>
    ensures { IfOk result (λ found. found ≡ option_map local_of
        (walk.members_fault (view json.now)
        (walk.fault_at G.schemas (members_in (view json.now)))
        (map member_of members.now))) }
{
    for member in members {
        if let Some(found) = member_fault(alloc, json, member)? {
            return Ok(Some(found));
        }
    }
    Ok(None)
}

// The first fault of one member of a schema.
#[cycle(walk)]
fn member_fault<G: Grammar>(
    alloc: Global,
    json: &Json,
    member: &Member<G>,
) -> Result<Option<LocalFault>, AllocError>
    ensures { IfOk result (λ found. found ≡ option_map local_of
        (walk.member_fault (view json.now)
        (walk.fault_at G.schemas (members_in (view json.now)))
        (member_of member.now))) }
{
    match json.get(member.name) {
        Some(value) => {
            if is_excluded(json, value, member.excluded_by) {
                return wrong_member(alloc, member.name);
            }
            match value_fault(alloc, value, &member.form)? {
                Some(found) => Ok(Some(found.inside_member(alloc, member.name)?)),
                None => Ok(None),
            }
        }
        None => {
            if member.needed {
                return wrong_member(alloc, member.name);
            }
            Ok(None)
        }
    }
}

// A fault at a member itself.
#[tactic(auto, unfolding(crate::specs::Places::path_text, crate::specs::Places::step_text, crate::specs::Places::is_named))]
fn wrong_member(alloc: Global, name: &str) -> Result<Option<LocalFault>, AllocError>
    ensures { IfOk result (λ found. found ≡ option_map local_of
        (Some (walk.inside (into_member name.now) (walk.here FaultKind.Wrong)))) }
{
    Ok(Some(LocalFault::here(alloc, FaultKind::Wrong).inside_member(alloc, name)?))
}

// A fault where a test fails.
fn wrong_unless(alloc: Global, ok: bool) -> Option<LocalFault>
    ensures { result ≡ option_map local_of (walk.unless_holds ok) }
{
    if ok {
        None
    } else {
        Some(LocalFault::here(alloc, FaultKind::Wrong))
    }
}

// Whether a list is longer than it may be.
#[tactic(auto, unfolding(crate::specs::Walk::is_over))]
fn is_over(most: Option<usize>, len: usize) -> bool
    ensures { result ≡ walk.is_over most len }
{
    match most {
        Some(most) => most < len,
        None => false,
    }
}
