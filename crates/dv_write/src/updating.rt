//! The change of a row's values: it is checked, then made.
ghost use Rattle.std.specs.Prelude.{◌≡◌, ◌++◌, ◌&&◌, IfOk, OnOk, OnErr, Ok, Err};
ghost use Rattle.std.specs.Option.{option_copied};
ghost use Rattle.dv_work.specs.History.{Extends};
ghost use Rattle.dv_store.specs.Shapes.{place_of};
ghost use Rattle.dv_cascade.specs.Sound.{IsSoundWorld};
ghost use Rattle.dv_message.specs.Checked.{AllPass, Answers, Walked};
ghost use Rattle.dv_message.specs.Columns.{first_by_name, is_empty};
ghost use Rattle.dv_message.specs.Scenes.{IsOfItsTable};
ghost use Rattle.dv_message.specs.Showing.{value_at};
ghost use Rattle.dv_message.specs.declared.stop.Stop.TheVariants.{Refused};
ghost use Rattle.dv_refusal.specs.declared.refusal.Refusal.{Refusal as Answer};
ghost use Rattle.dv_write.specs.Updating.{missing_fault, missing_from, must_have, named_rows, placed_from, placed_in, update_changes, update_checks, update_in, update_values, updated_row, updating_in, IsUpdated, RunsUpdate, UpdateLimit, UpdateSays};

use crate::change::{Change, Edit, Placed};
use crate::editing::{add_touched, edited};
use crate::effect::make;
use crate::kept::check_version;
use crate::linking::{check_append, check_circle};
use crate::moving::settle;
use crate::reached::key_of;
use dv_cascade::parent_of;
use dv_message::{
    Naming, Stop, Target, Writing, check_all_named, check_right, check_row, check_size,
    check_values, earlier, given_by, is_empty, namings,
};
use dv_refusal::Refusal;
use dv_request::Reply;
use dv_schema::{Action, Column};
use dv_store::{Row, Store};
use dv_value::{Id, Raw, Values};
use sqlite_items::Items;
use std::alloc::{AllocError, Global};

/// What is checked of an update before it is made.
#[derive(Clone, Copy, Debug, PartialEq, Eq)]
pub(crate) enum UpdateCheck {
    /// Each value that is given is one of a column that may be written, and of its type.
    Values,
    /// The row is there.
    Row,
    /// The user may write the row.
    Right,
    /// The user may append the row to each row that its lookups are given; this one is there.
    Append,
    /// The row is at the version that is said.
    Version,
    /// Each column that must have a value has one in the row as it will be.
    Required,
    /// Each row that the lookups are given is there.
    Named,
    /// No lookup puts the row above itself.
    Circle,
    /// The row won't be too large.
    Size,
}

/// The checks, in the order in which they are made.
const UPDATE_CHECKS: [UpdateCheck; 9] = [
    UpdateCheck::Values,
    UpdateCheck::Row,
    UpdateCheck::Right,
    UpdateCheck::Append,
    UpdateCheck::Version,
    UpdateCheck::Required,
    UpdateCheck::Named,
    UpdateCheck::Circle,
    UpdateCheck::Size,
];

/// The number of the id among the columns of a table. Rows leave it out of their values.
const ID_NUMBER: usize = 2;

/// The place of a column's value among those of a row.
fn place_of(number: usize) -> usize
    ensures { result ≡ place_of number }
{
    if number > ID_NUMBER {
        number - 1
    } else {
        number
    }
}

/// Adds the value that is given for the column of a number, if one is.
fn place_value(
    alloc: Global,
    placed: &mut Items<Placed>,
    number: usize,
    column: &Column,
    given: Option<&Raw>,
) -> Result<(), AllocError>
    ensures { OnOk result (placed.new ≡ placed.old
        ++ placed_in number column.now (option_copied given.entry)) }
{
    if given.is_none() {
        return Ok(());
    }
    placed.push(Placed {
        place: place_of(number),
        value: given_by(alloc, &column.kind, given)?,
    })
}

/// The values that are given for the columns of a table, at their places.
#[tactic(auto, unfolding(crate::specs::Updating::placed_from))]
fn given_values(
    alloc: Global,
    values: &Values,
    columns: &[Column],
) -> Result<Items<Placed>, AllocError>
    ensures { IfOk result (λ placed. placed ≡ placed_from 0 values.now columns.now) }
{
    let mut placed = Items::new(alloc);
    for (number, column) in columns.iter().enumerate() {
        let given = values.get(column.name.as_str());
        place_value(alloc, &mut placed, number, column, given)?;
    }
    Ok(placed)
}

/// Whether a row must have a value in a column.
fn must_have(column: &Column) -> bool
    ensures { result ≡ must_have column.now }
{
    if column.required {
        return true;
    }
    column.name.is("statecode")
}

/// Whether a row has no value in the column of a number. Each row has its id.
fn has_none(id: Id, row: &Row, number: usize) -> bool
    ensures { result ≡ is_empty (value_at id row.now number) }
{
    if number == ID_NUMBER {
        return false;
    }
    match row.values.get(place_of(number)) {
        Some(value) => is_empty(value),
        None => true,
    }
}

/// Whether a row must have a value in the column of a number and has none.
fn is_missing(id: Id, row: &Row, number: usize, column: &Column) -> bool
    ensures { result ≡ (must_have column.now && is_empty (value_at id row.now number)) }
{
    if !must_have(column) {
        return false;
    }
    has_none(id, row, number)
}

/// Of the columns in which a row must have a value and has none the first by name.
#[tactic(auto, unfolding(dv_message::specs::Columns::first_by_name, crate::specs::Updating::missing_from))]
fn first_missing<'a>(id: Id, row: &Row, columns: &'a [Column]) -> Option<&'a Column>
    ensures { option_copied result ≡ first_by_name (missing_from id row.now 0 columns.now) }
{
    let mut first = None;
    let mut place = columns.len();
    while place > 0 {
        place -= 1;
        let column = &columns[place];
        if is_missing(id, row, place, column) {
            first = Some(earlier(column, first));
        }
    }
    first
}

/// Checks that a row has a value in each column in which it must have one.
fn check_required(alloc: Global, id: Id, row: &Row, columns: &[Column]) -> Result<(), Stop>
    ensures { Answers (λ said. said ≡ missing_fault id row.now columns.now) result }
{
    match first_missing(id, row, columns) {
        None => Ok(()),
        Some(column) => Err(Stop::Refused(Refusal::RequiredMissing {
            column: column.name.copy(alloc)?,
        })),
    }
}

/// An update: the row that is changed, the values that it is given, and the version that it has to be at. The rows that
/// the lookups among the values name are at hand.
#[derive(Clone, Copy, Drop)]
pub(crate) struct RowUpdate<'a> {
    pub target: &'a Target<'a>,
    pub values: &'a Values,
    pub version: Option<u64>,
    pub named: &'a [Naming],
}

impl RowUpdate<'_> {
    /// What the update puts into its row.
    fn placed(&self, alloc: Global, store: &Store) -> Result<Items<Placed>, AllocError>
        ensures { IfOk result (λ placed. placed
            ≡ update_values (update_in store.now.present self.now)) }
    {
        let columns = self.target.table.columns.as_slice();
        let mut placed = given_values(alloc, self.values, columns)?;
        add_touched(&mut placed, &self.target.scene)?;
        Ok(placed)
    }

    /// The row as the update leaves it, if it is there.
    fn row(
        &self,
        alloc: Global,
        store: &Store,
        placed: &[Placed],
    ) -> Result<Option<Row>, AllocError>
        requires { placed.now ≡ update_values (update_in store.now.present self.now) }
        ensures { IfOk result (λ row. row ≡ updated_row (update_in store.now.present self.now)) }
    {
        match store.row(self.target.number, self.target.id) {
            Some(row) => Ok(Some(edited(alloc, placed, row)?)),
            None => Ok(None),
        }
    }

    /// Makes one of the checks. The row as it will be is at hand.
    #[tactic(auto, unfolding(crate::specs::Updating::UpdateSays))]
    fn judge(
        &self,
        alloc: Global,
        row: Option<&Row>,
        store: &Store,
        check: UpdateCheck,
    ) -> Result<(), Stop>
        requires row { option_copied row ≡ updated_row (update_in store.now.present self.now) }
        requires named { self.now.named.now ≡ named_rows (update_in store.now.present self.now) }
        requires sound { IsSoundWorld self.now.target.now.scene.definition.now
            store.now.present }
        ensures { Answers (UpdateSays (update_in store.now.present self.now) check) result }
    {
        let target = self.target;
        match check {
            UpdateCheck::Values => check_values(
                alloc,
                Writing::Update,
                target.table.columns.as_slice(),
                self.values.as_slice(),
            ),
            UpdateCheck::Row => check_row(alloc, store, target),
            UpdateCheck::Right => check_right(alloc, store, target, Action::Write),
            UpdateCheck::Append => check_append(alloc, store, target, self.named),
            UpdateCheck::Version => check_version(store, target, self.version),
            UpdateCheck::Required => match row {
                None => Ok(()),
                Some(row) => {
                    check_required(alloc, target.id, row, target.table.columns.as_slice())
                }
            },
            UpdateCheck::Named => check_all_named(alloc, store, target, self.named),
            UpdateCheck::Circle => check_circle(
                alloc,
                store,
                target.scene.definition,
                key_of(target),
                self.named,
            ),
            UpdateCheck::Size => match row {
                None => Ok(()),
                Some(row) => check_size(alloc, row.values.as_slice()),
            },
        }
    }

    /// Makes checks in their order, up to the first that fails.
    #[tactic(auto, unfolding(dv_message::specs::Checked::AllPass, dv_message::specs::Checked::FirstSays))]
    fn judge_all(
        &self,
        alloc: Global,
        row: Option<&Row>,
        store: &Store,
        checks: &[UpdateCheck],
    ) -> Result<(), Stop>
        requires row { option_copied row ≡ updated_row (update_in store.now.present self.now) }
        requires named { self.now.named.now ≡ named_rows (update_in store.now.present self.now) }
        requires sound { IsSoundWorld self.now.target.now.scene.definition.now
            store.now.present }
        ensures { Walked (UpdateSays (update_in store.now.present self.now)) checks.now result }
    {
        for check in checks {
            match self.judge(alloc, row, store, *check) {
                Ok(()) => {}
                Err(stop) => return Err(stop),
            }
        }
        Ok(())
    }

    /// The changes that the update makes.
    #[tactic(auto, unfolding(crate::specs::Updating::update_changes))]
    fn changes(
        &self,
        alloc: Global,
        store: &Store,
        placed: Items<Placed>,
    ) -> Result<Items<Change>, AllocError>
        requires { placed ≡ update_values (update_in store.now.present self.now) }
        ensures { IfOk result (λ changes. changes
            ≡ update_changes (update_in store.now.present self.now)) }
    {
        let mut changes = Items::new(alloc);
        changes.push(Change {
            key: key_of(self.target),
            edit: Edit::Set(placed),
        })?;
        Ok(changes)
    }

    /// Sets the row's values, and hands on that it has another parent then, if it has. Some of this may be made on an
    /// `Err`.
    fn set(&self, alloc: Global, store: &mut Store, changes: &[Change]) -> Result<(), Stop>
        requires changes { changes.now
            ≡ update_changes (update_in store.old.present self.now) }
        requires sound { IsSoundWorld self.now.target.now.scene.definition.now
            store.old.present }
        requires table { IsOfItsTable self.now.target.now }
        requires passed { AllPass (UpdateSays (update_in store.old.present self.now))
            update_checks }
        ensures ok { OnOk result
            (IsUpdated (update_in store.old.present self.now) store.new.present) }
        ensures limit { Answers (UpdateLimit (update_in store.old.present self.now)) result }
        ensures extends { Extends store.old store.new }
        ensures shape { OnOk result (store.new.present.shape ≡ store.old.present.shape) }
        ensures sound { OnOk result (IsSoundWorld self.now.target.now.scene.definition.now
            store.new.present) }
    {
        let target = self.target;
        let definition = target.scene.definition;
        let key = key_of(target);
        let before = parent_of(store, definition, key);
        match make(alloc, store, changes) {
            Ok(()) => {}
            Err(stop) => return Err(stop),
        }
        settle(alloc, store, definition, key, before)
    }

    /// Changes the row and hands this on, whole or not at all.
    fn change(&self, alloc: Global, store: &mut Store, changes: &[Change]) -> Result<(), Stop>
        requires changes { changes.now
            ≡ update_changes (update_in store.old.present self.now) }
        requires sound { IsSoundWorld self.now.target.now.scene.definition.now
            store.old.present }
        requires table { IsOfItsTable self.now.target.now }
        requires passed { AllPass (UpdateSays (update_in store.old.present self.now))
            update_checks }
        ensures ok { OnOk result
            (IsUpdated (update_in store.old.present self.now) store.new.present) }
        ensures limit { Answers (UpdateLimit (update_in store.old.present self.now)) result }
        ensures extends { OnOk result (Extends store.old store.new) }
        ensures shape { OnOk result (store.new.present.shape ≡ store.old.present.shape) }
        ensures sound { OnOk result (IsSoundWorld self.now.target.now.scene.definition.now
            store.new.present) }
        ensures kept { OnErr result (store.new ≡ store.old) }
    {
        let start = store.mark();
        match self.set(alloc, store, changes) {
            Ok(()) => Ok(()),
            Err(stop) => {
                store.undo_to(start);
                Err(stop)
            }
        }
    }

    /// Makes the update, if each check passes and no limit is passed.
    fn run(&self, alloc: Global, store: &mut Store) -> Result<Reply, Stop>
        requires named { self.now.named.now ≡ named_rows (update_in store.old.present self.now) }
        requires sound { IsSoundWorld self.now.target.now.scene.definition.now
            store.old.present }
        requires table { IsOfItsTable self.now.target.now }
        ensures ok { IfOk result (λ reply.
            RunsUpdate (update_in store.old.present self.now) store.new.present (Ok reply)) }
        ensures refused { (refusal : Answer) → result ≡ Err (Refused refusal)
            → RunsUpdate (update_in store.old.present self.now) store.old.present (Err refusal) }
        ensures extends { OnOk result (Extends store.old store.new) }
        ensures shape { OnOk result (store.new.present.shape ≡ store.old.present.shape) }
        ensures sound { OnOk result (IsSoundWorld self.now.target.now.scene.definition.now
            store.new.present) }
        ensures kept { OnErr result (store.new ≡ store.old) }
    {
        let placed = self.placed(alloc, store)?;
        let row = self.row(alloc, store, placed.as_slice())?;
        match self.judge_all(alloc, row.as_ref(), store, &UPDATE_CHECKS) {
            Ok(()) => {}
            Err(stop) => return Err(stop),
        }
        let changes = self.changes(alloc, store, placed)?;
        match self.change(alloc, store, changes.as_slice()) {
            Ok(()) => Ok(Reply::Done),
            Err(stop) => Err(stop),
        }
    }
}

/// Changes values of a row, if each check passes and no limit is passed. The user and the moment of the change are kept
/// in the row, and it takes the next version, also where no values are given. Where the row has another parent then, or
/// none any more, and this is handed on, it and the rows that this reaches inherit anew.
///
/// The links of the store are sound, and they stay so. The target is of the table that the definition has at its number.
///
/// # Errors
///
/// The first check that fails, or the limit that would be passed; or memory ran out. The store is then as it was.
pub fn update(
    alloc: Global,
    store: &mut Store,
    target: &Target<'_>,
    values: &Values,
    version: Option<u64>,
) -> Result<Reply, Stop>
    requires sound { IsSoundWorld target.now.scene.definition.now store.old.present }
    requires table { IsOfItsTable target.now }
    ensures ok { IfOk result (λ reply. RunsUpdate
        (updating_in store.old.present target.now values.now version)
        store.new.present (Ok reply)) }
    ensures refused { (refusal : Answer) → result ≡ Err (Refused refusal) → RunsUpdate
        (updating_in store.old.present target.now values.now version)
        store.old.present (Err refusal) }
    ensures extends { OnOk result (Extends store.old store.new) }
    ensures shape { OnOk result (store.new.present.shape ≡ store.old.present.shape) }
    ensures sound { OnOk result (IsSoundWorld target.now.scene.definition.now
        store.new.present) }
    ensures kept { OnErr result (store.new ≡ store.old) }
{
    let columns = target.table.columns.as_slice();
    let named = namings(alloc, target.scene.definition, columns, values)?;
    let update = RowUpdate {
        target,
        values,
        version,
        named: named.as_slice(),
    };
    update.run(alloc, store)
}
