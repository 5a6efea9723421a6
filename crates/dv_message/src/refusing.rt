//! How a refusal is told.
ghost use Rattle.std.specs.Prelude.{◌≡◌, IfOk, Option};
ghost use Rattle.dv_schema.specs.Words.{action_word};
ghost use Rattle.dv_message.specs.Checked.{Answers, refused_if};
ghost use Rattle.dv_message.specs.Refusing.{privilege_name, why_word, denied_as};
ghost use Rattle.dv_refusal.specs.declared.refusal.Refusal.{Refusal as Answer};

use crate::stop::Stop;
use dv_access::{Denied, Why};
use dv_refusal::Refusal;
use dv_schema::{Action, Table};
use dv_value::Text;
use std::alloc::{AllocError, Global};

/// What a check that was computed answers.
pub fn answer(refusal: Option<Refusal>) -> Result<(), Stop>
    ensures { Answers (λ said. said ≡ refusal) result }
{
    match refusal {
        None => Ok(()),
        Some(refusal) => Err(Stop::Refused(refusal)),
    }
}

/// A refusal where a test holds.
pub fn refused_if(test: bool, refusal: Refusal) -> Result<(), Stop>
    ensures { Answers (λ said. said ≡ refused_if test refusal) result }
{
    if test { answer(Some(refusal)) } else { Ok(()) }
}

/// The name of the privilege to do an action on a table.
fn privilege_name(alloc: Global, action: Action, table: &Table) -> Result<Text, AllocError>
    ensures { IfOk result (λ name. name ≡ privilege_name (action_word action) table.now.name) }
{
    let action = action.word();
    let table = table.name.as_str();
    Ok(Text::from_string(format!(in alloc; "prv{action}{table}")?))
}

/// The word for why an action is denied.
#[tactic(auto, unfolding(crate::specs::Refusing::why_word))]
fn why_word(why: Why) -> &'static str
    ensures { result.now ≡ why_word why }
{
    match why {
        Why::NoPrivilege => "NoPrivilege",
        Why::OutOfReach => "OutOfReach",
    }
}

/// A denial, as it is told: the privilege by its name, and why.
#[tactic(auto, unfolding(crate::specs::Refusing::denied_as))]
pub fn denied(alloc: Global, table: &Table, denied: Denied) -> Result<Refusal, AllocError>
    ensures { IfOk result (λ refusal. refusal ≡ denied_as table.now denied) }
{
    Ok(Refusal::Denied {
        privilege: privilege_name(alloc, denied.action, table)?,
        why: Text::from_str(alloc, why_word(denied.why))?,
    })
}
