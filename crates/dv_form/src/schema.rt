//! What a schema says of one object: its further members, those it does not list, exclusions.

ghost use Rattle.std.specs.Prelude.{◌≡◌, ◌||◌, map, option_map, IfOk, ◌==◌, option_and_then};
ghost use Rattle.std.specs.List.{list_any};
ghost use Rattle.std.specs.Str.{bytes_eq};
ghost use Rattle.serde_json.specs.View.{view};
ghost use Rattle.dv_form.specs.LocalFaults.{local_of};
ghost use Rattle.dv_form.specs.Members.{members_in};
ghost use Rattle.dv_form.specs.Schemas as plain;
ghost use Rattle.dv_form.specs.Walk as walk;
ghost use Rattle.std.specs.Ordering.{int_eq};
ghost use Rattle.serde_json.specs.Find.{get, as_str};
ghost use Rattle.dv_form.specs.Members as say;
ghost use Rattle.dv_form.specs.Spellings.{passes, is_integer};

use crate::fault::FaultKind;
use crate::form::{Case, Exclusion, Member, Schema};
use crate::local_fault::LocalFault;
use crate::members::{id_in, integer_in};
use serde_json::Value as Json;
use std::alloc::{AllocError, Global};

/// The further members of an object. None where the member that decides on them isn't one of the words.
#[tactic(auto, unfolding(crate::specs::Walk::decided))]
pub(crate) fn further<R: 'static>(json: &Json, schema: &Schema<R>) -> Option<&'static [Member<R>]>
    ensures { option_map (λ members. map plain.member_of members.now) result
        ≡ walk.further (plain.schema_of schema.now) (view json.now) }
{
    let Some(name) = schema.decided_by else {
        return Some(&[]);
    };
    let Some(word) = json.get(name).and_then(Json::as_str) else {
        return None;
    };
    case_of(schema.cases, word)
}

// The members under a word.
fn case_of<R: 'static>(cases: &[Case<R>], word: &str) -> Option<&'static [Member<R>]>
    ensures { option_map (λ members. map plain.member_of members.now) result
        ≡ walk.case_of word.now (map plain.case_of cases.now) }
{
    for case in cases {
        if case.word == word {
            return Some(case.members);
        }
    }
    None
}

/// The first member of an object, in byte order, that neither list has.
pub(crate) fn unlisted_fault<R>(
    alloc: Global,
    json: &Json,
    members: &[Member<R>],
    more: &[Member<R>],
) -> Result<Option<LocalFault>, AllocError>
    ensures { IfOk result (λ found. found ≡ option_map local_of
        (walk.unlisted_fault (map plain.member_of members.now) (map plain.member_of more.now)
        (members_in (view json.now)))) }
{
    let Some(given) = json.as_object() else {
        return Ok(None);
    };
    for (name, _) in given.iter() {
        let name = name.as_str();
        if !is_in_either(members, more, name) {
            return Ok(Some(LocalFault::here(alloc, FaultKind::Unlisted).inside_member(
                alloc, name,
            )?));
        }
    }
    Ok(None)
}

// Whether one of two lists has a name.
fn is_in_either<R>(members: &[Member<R>], more: &[Member<R>], name: &str) -> bool
    ensures { result ≡ (walk.is_listed (map plain.member_of members.now) name.now
        || walk.is_listed (map plain.member_of more.now) name.now) }
{
    is_listed(members, name) || is_listed(more, name)
}

// Whether a list of members has a name.
#[tactic(auto, using(crate::proofs::Faults::list_any_map), unfolding(crate::specs::Walk::is_listed))]
fn is_listed<R>(members: &[Member<R>], name: &str) -> bool
    ensures { result ≡ walk.is_listed (map plain.member_of members.now) name.now }
{
    has_name(members, name)
}

// Whether one of the members has a name.
fn has_name<R>(members: &[Member<R>], name: &str) -> bool
    ensures { result ≡ list_any (λ m. bytes_eq m.name.now name.now) members.now }
{
    members.iter().any(|member| is_called(member, name))
}

// Whether a member has a name.
fn is_called<R>(member: &Member<R>, name: &str) -> bool
    ensures { result ≡ bytes_eq member.now.name.now name.now }
{
    member.name == name
}

/// Whether one of these exclusions holds for the value of a member of an object.
pub(crate) fn is_excluded(json: &Json, own: &Json, exclusions: &[Exclusion]) -> bool
    ensures { result ≡ list_any
        (λ exclusion. walk.is_excluded_by (view json.now) (view own.now)
        (plain.exclusion_of exclusion))
        exclusions.now }
{
    exclusions
        .iter()
        .any(|exclusion| exclusion.holds(json, own))
}

impl Exclusion {
    // Whether an exclusion holds for a member of an object.
    #[tactic(auto, unfolding(crate::specs::Walk::is_excluded_by))]
    fn holds(&self, json: &Json, own: &Json) -> bool
        ensures { result ≡ walk.is_excluded_by (view json.now) (view own.now)
            (plain.exclusion_of self.now) }
    {
        match self {
            Exclusion::Given(name) => json.get(*name).is_some(),
            Exclusion::IsWord(name, word) => has_word(json, name, word),
            Exclusion::IsNotInteger(name, n) => !has_integer(json, name, *n),
            Exclusion::IsSameId(name) => has_id_of(json, name, own),
        }
    }
}

// Whether the member of a name is this word.
fn has_word(json: &Json, name: &str, word: &str) -> bool
    ensures { result ≡ passes (λ s. bytes_eq s word.now)
        (option_and_then as_str (get name.now (view json.now))) }
{
    match json.get(name).and_then(Json::as_str) {
        Some(text) => text == word,
        None => false,
    }
}

// Whether the member of a name is this integer.
#[tactic(auto, unfolding(crate::specs::Spellings::is_integer))]
fn has_integer(json: &Json, name: &str, n: i64) -> bool
    ensures { result ≡ passes (is_integer n) (get name.now (view json.now)) }
{
    match json.get(name) {
        Some(value) => integer_in(value) == Some(n),
        None => false,
    }
}

// Whether the member of a name is the id that this value is.
fn has_id_of(json: &Json, name: &str, own: &Json) -> bool
    ensures { result ≡ passes
        (λ id. passes (λ other. id.0 == other.0)
        (option_and_then say.id_in (get name.now (view json.now))))
        (say.id_in (view own.now)) }
{
    match id_in(own) {
        Some(id) => match json.get(name).and_then(id_in) {
            Some(other) => id.0 == other.0,
            None => false,
        },
        None => false,
    }
}
