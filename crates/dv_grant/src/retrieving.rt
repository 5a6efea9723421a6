//! Retrieving a row.
ghost use Rattle.std.specs.Prelude.{◌≡◌, IfOk, Some, Ok, Err};
ghost use Rattle.dv_message.specs.Rows.{row_in};
ghost use Rattle.dv_message.specs.Scenes.{targeted_in};
ghost use Rattle.dv_store.specs.World.{World};
ghost use Rattle.dv_message.specs.Checked.{Answers, Walked};
ghost use Rattle.dv_grant.specs.Retrieving.{retrieving_in, name_fault, names_fault, asked_fault, IsShownAs, RetrieveSays, RunsRetrieve};
ghost use Rattle.dv_refusal.specs.declared.refusal.Refusal.{Refusal as Answer};
ghost use Rattle.dv_message.specs.declared.stop.Stop.TheVariants.{Refused};

use dv_message::{Stop, Target, asked_numbers, check_right, check_row, column_of, show_row};
use dv_refusal::Refusal;
use dv_request::Reply;
use dv_schema::{Action, Column};
use dv_store::{Row, Store};
use dv_value::{Names, Text, Values};
use std::alloc::{AllocError, Global};

/// What is checked before a row is shown.
#[derive(Clone, Copy, Debug, PartialEq, Eq)]
pub(crate) enum RetrieveCheck {
    /// Each name is that of a column.
    Columns,
    /// The row is there.
    Row,
    /// The caller may read it.
    Read,
}

/// The checks, in the order in which they are made.
const RETRIEVE_CHECKS: [RetrieveCheck; 3] = [
    RetrieveCheck::Columns,
    RetrieveCheck::Row,
    RetrieveCheck::Read,
];

/// Checks that a name is that of a column.
fn check_name(alloc: Global, columns: &[Column], name: &Text) -> Result<(), Stop>
    ensures { Answers (λ said. said ≡ name_fault columns.now name.now) result }
{
    if column_of(columns, name).is_some() {
        return Ok(());
    }
    Err(Stop::Refused(Refusal::UnknownColumn {
        column: name.copy(alloc)?,
    }))
}

/// Checks that each name is that of a column, in the order in which they are given.
#[tactic(auto, unfolding(crate::specs::Retrieving::names_fault))]
fn check_names(alloc: Global, columns: &[Column], names: &[Text]) -> Result<(), Stop>
    ensures { Answers (λ said. said ≡ names_fault columns.now names.now) result }
{
    for name in names {
        match check_name(alloc, columns, name) {
            Ok(()) => {}
            Err(stop) => return Err(stop),
        }
    }
    Ok(())
}

/// Checks the names, if any are given.
fn check_asked(alloc: Global, columns: &[Column], names: &Option<Names>) -> Result<(), Stop>
    ensures { Answers (λ said. said ≡ asked_fault columns.now names.now) result }
{
    match names {
        None => Ok(()),
        Some(names) => check_names(alloc, columns, names.as_slice()),
    }
}

/// Makes one of the checks.
#[tactic(auto, unfolding(crate::specs::Retrieving::RetrieveSays))]
fn judge(
    alloc: Global,
    store: &Store,
    target: &Target<'_>,
    columns: &Option<Names>,
    check: RetrieveCheck,
) -> Result<(), Stop>
    ensures { Answers (RetrieveSays (retrieving_in store.now.present target.now columns.now)
        check) result }
{
    match check {
        RetrieveCheck::Columns => check_asked(alloc, target.table.columns.as_slice(), columns),
        RetrieveCheck::Row => check_row(alloc, store, target),
        RetrieveCheck::Read => check_right(alloc, store, target, Action::Read),
    }
}

/// Makes checks in their order, up to the first that fails.
#[tactic(auto, unfolding(dv_message::specs::Checked::AllPass, dv_message::specs::Checked::FirstSays))]
fn judge_all(
    alloc: Global,
    store: &Store,
    target: &Target<'_>,
    columns: &Option<Names>,
    checks: &[RetrieveCheck],
) -> Result<(), Stop>
    ensures { Walked (RetrieveSays (retrieving_in store.now.present target.now columns.now))
        checks.now result }
{
    for check in checks {
        match judge(alloc, store, target, columns, *check) {
            Ok(()) => {}
            Err(stop) => return Err(stop),
        }
    }
    Ok(())
}

/// A row as it is shown, with the columns that are asked for.
fn show(
    alloc: Global,
    target: &Target<'_>,
    names: &Option<Names>,
    row: &Row,
) -> Result<Values, AllocError>
    ensures { (world : World) → IfOk result
        (IsShownAs (retrieving_in world target.now names.now) (Some row.now)) }
{
    let columns = target.table.columns.as_slice();
    let numbers = asked_numbers(alloc, names, columns)?;
    Ok(show_row(alloc, columns, numbers.as_slice(), target.id, row)?)
}

/// The same of the row that the message names.
fn show_named(
    alloc: Global,
    store: &Store,
    target: &Target<'_>,
    names: &Option<Names>,
) -> Result<Values, AllocError>
    ensures { IfOk result (IsShownAs (retrieving_in store.now.present target.now names.now)
        (row_in (targeted_in store.now.present target.now))) }
{
    match store.row(target.number, target.id) {
        Some(row) => show(alloc, target, names, row),
        None => Ok(Values::new(alloc)),
    }
}

/// Shows the row that a message names, with the columns that are asked for or, where none are given, with all.
///
/// # Errors
///
/// `Refused` with the first check that fails: a name is no column's (`UnknownColumn` with the first such name); the row
/// isn't there (`NotFound`); the caller may not read it (`Denied`). `OutOfMemory`.
pub fn retrieve(
    alloc: Global,
    store: &Store,
    target: &Target<'_>,
    columns: &Option<Names>,
) -> Result<Reply, Stop>
    ensures ok { IfOk result (λ reply. RunsRetrieve
        (retrieving_in store.now.present target.now columns.now) (Ok reply)) }
    ensures refused { (refusal : Answer) → result ≡ Err (Refused refusal) → RunsRetrieve
        (retrieving_in store.now.present target.now columns.now) (Err refusal) }
{
    match judge_all(alloc, store, target, columns, &RETRIEVE_CHECKS) {
        Ok(()) => {}
        Err(stop) => return Err(stop),
    }
    let row = show_named(alloc, store, target, columns)?;
    Ok(Reply::Found { row })
}
