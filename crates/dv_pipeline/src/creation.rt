//! A creation, and each check that is made of it.
ghost use Rattle.std.specs.Prelude.{◌≡◌, IfOk, filter};
ghost use Rattle.std.specs.Option.{option_copied};
ghost use Rattle.dv_store.specs.Keys.{row_key};
ghost use Rattle.dv_store.specs.World.{is_there, World};
ghost use Rattle.dv_message.specs.Checked.{Answers, Both, Walked, refused_if};
ghost use Rattle.dv_message.specs.Columns.{first_by_name, own_columns, owner_name, given_by};
ghost use Rattle.dv_message.specs.Lookups.{AppendSays, AppendToSays};
ghost use Rattle.dv_message.specs.Scenes.{setting_of, targeted_in};
ghost use Rattle.dv_pipeline.specs.Creating.{creating_in, id_in, owner_in, new_id, is_bad_owner, is_reserved, has_no_id, is_missing, new_row, named_rows, target_of, missing_fault, MayDoNew, NewRight, CreationSays, creation_checks};
ghost use Rattle.dv_refusal.specs.declared.refusal.Refusal.TheVariants as answer;
ghost use Rattle.dv_refusal.specs.declared.what.What.TheVariants as what;
ghost use Rattle.dv_schema.specs.declared.opening.Action.TheVariants as action;

use dv_access::check_new;
use dv_message::{
    Naming, Scene, Stop, Target, Writing, check_all_named, check_append_to, check_size,
    check_values, denied, earlier, given_by, is_empty, is_owner, own_columns, refused_if,
};
use dv_refusal::{Refusal, What};
use dv_schema::{Action, Column, Table};
use dv_store::{Row, Store};
use dv_units::Units;
use dv_value::{Id, Kind, Value, Values};
use std::alloc::{AllocError, Global};

/// The first id that callers may choose: 2^64. The service gives those below it.
const FIRST_FREE: u128 = 18_446_744_073_709_551_616;

/// The creation of a row: by whom, of which organisation and when, in which table, with which id if one is chosen, and
/// with which values.
#[derive(Clone, Copy, Drop)]
pub(crate) struct Creation<'a> {
    pub scene: Scene<'a>,
    pub number: u16,
    pub table: &'a Table,
    pub chosen: Option<Id>,
    pub values: &'a Values,
}

/// What is checked of a creation before it is made.
#[derive(Clone, Copy, Debug, PartialEq, Eq)]
pub(crate) enum CreationCheck {
    /// Each value is one of a column that can be given.
    Values,
    /// The id that is chosen isn't one of those that the service gives.
    ChosenId,
    /// There is an id left, where none is chosen.
    NextId,
    /// The owner is a user or an owner team.
    Owner,
    /// The user has the privilege to make rows of the owner.
    Privilege,
    /// The user may append the new row, and may append to each row that its lookups name, which is there.
    Append,
    /// Each required column has a value.
    Required,
    /// Each row that its lookups name is there.
    Named,
    /// No row of the table has the id.
    FreeId,
    /// The row isn't too large.
    Size,
}

/// The checks, in the order in which they are made.
pub(crate) const CREATION_CHECKS: [CreationCheck; 10] = [
    CreationCheck::Values,
    CreationCheck::ChosenId,
    CreationCheck::NextId,
    CreationCheck::Owner,
    CreationCheck::Privilege,
    CreationCheck::Append,
    CreationCheck::Required,
    CreationCheck::Named,
    CreationCheck::FreeId,
    CreationCheck::Size,
];

/// Whether an owner may not be one.
fn is_bad_owner(units: &Units, owner: Option<Id>) -> bool
    ensures { result ≡ is_bad_owner units.now owner }
{
    match owner {
        Some(id) => !is_owner(units, id),
        None => false,
    }
}

/// Whether the id that is chosen is one of those that the service gives.
fn is_reserved(chosen: Option<Id>) -> bool
    ensures { result ≡ is_reserved chosen }
{
    match chosen {
        Some(id) => id.0 < FIRST_FREE,
        None => false,
    }
}

/// The id that a value names; else another.
fn id_in(value: &Value, other: Id) -> Id
    ensures { result ≡ id_in value.now other }
{
    match value {
        Value::Ref(id) => *id,
        _ => other,
    }
}

/// Whether a column must have a value and gets none.
fn is_missing(alloc: Global, values: &Values, column: &Column) -> Result<bool, AllocError>
    ensures { IfOk result (λ missing. missing ≡ is_missing values.now column.now) }
{
    if !column.required {
        return Ok(false);
    }
    let given = given_by(alloc, &column.kind, values.get(column.name.as_str()))?;
    Ok(is_empty(&given))
}

/// Of the columns that must have a value and get none the first by name.
#[tactic(auto, unfolding(dv_message::specs::Columns::first_by_name))]
fn first_missing<'a>(
    alloc: Global,
    values: &Values,
    columns: &'a [Column],
) -> Result<Option<&'a Column>, AllocError>
    ensures { IfOk result (λ first. option_copied first
        ≡ first_by_name (filter (is_missing values.now) columns.now)) }
{
    let mut first = None;
    let mut place = columns.len();
    while place > 0 {
        place -= 1;
        let column = &columns[place];
        if is_missing(alloc, values, column)? {
            first = Some(earlier(column, first));
        }
    }
    Ok(first)
}

impl Creation<'_> {
    /// The owner of the new row, where rows have owners.
    pub fn owner(&self, alloc: Global) -> Result<Option<Id>, AllocError>
        ensures { IfOk result (λ owner. owner
            ≡ owner_in self.now.table.now self.now.scene.user self.now.values.now) }
    {
        if !self.table.user_owned {
            return Ok(None);
        }
        let given = given_by(alloc, &Kind::Ref, self.values.get("ownerid"))?;
        Ok(Some(id_in(&given, self.scene.user)))
    }

    /// The id of the new row.
    pub fn id(&self, store: &Store) -> Id
        ensures { result ≡ new_id (creating_in store.now.present self.now) }
    {
        match self.chosen {
            Some(id) => id,
            None => Id(u128::from(store.numbers().last_id) + 1),
        }
    }

    /// The new row, as if a message named it.
    fn target(&self, store: &Store) -> Target<'_>
        ensures { targeted_in store.now.present result
            ≡ target_of (creating_in store.now.present self.now) }
    {
        Target {
            scene: self.scene,
            number: self.number,
            table: self.table,
            id: self.id(store),
        }
    }

    /// Checks that the owner may be one.
    fn check_owner(&self, alloc: Global) -> Result<(), Stop>
        ensures { Answers (λ said. said
            ≡ refused_if (is_bad_owner self.now.scene.directory.now.chart
            (owner_in self.now.table.now self.now.scene.user self.now.values.now))
            answer.BadPrincipal) result }
    {
        let owner = self.owner(alloc)?;
        let is_bad = is_bad_owner(self.scene.directory.units(), owner);
        refused_if(is_bad, Refusal::BadPrincipal)
    }

    /// Checks the privilege to do an action to new rows of the owner.
    fn check_privilege(&self, alloc: Global, action: Action) -> Result<(), Stop>
        ensures { Answers (MayDoNew (setting_of self.now.scene) action self.now.number
            self.now.table.now
            (owner_in self.now.table.now self.now.scene.user self.now.values.now)) result }
    {
        let owner = self.owner(alloc)?;
        match check_new(
            self.scene.directory,
            self.scene.user,
            action,
            self.number,
            owner,
        ) {
            Ok(()) => Ok(()),
            Err(denial) => Err(Stop::Refused(denied(alloc, self.table, denial)?)),
        }
    }

    /// Checks that the user may append the new row, and may append to a row that its lookup names.
    fn check_append(&self, alloc: Global, store: &Store, naming: Naming) -> Result<(), Stop>
        ensures { Answers (Both (NewRight (creating_in store.now.present self.now) action.Append)
            (AppendToSays (target_of (creating_in store.now.present self.now)) naming)) result }
    {
        match self.check_privilege(alloc, Action::Append) {
            Ok(()) => check_append_to(alloc, store, &self.target(store), naming),
            Err(stop) => Err(stop),
        }
    }

    /// Checks this of each of the rows that are named, up to the first that fails.
    #[tactic(auto, unfolding(dv_message::specs::Lookups::AppendSays, dv_message::specs::Checked::AllPass, dv_message::specs::Checked::FirstSays))]
    fn check_all_append(&self, alloc: Global, store: &Store, named: &[Naming]) -> Result<(), Stop>
        ensures { Answers (AppendSays
            (NewRight (creating_in store.now.present self.now) action.Append)
            (target_of (creating_in store.now.present self.now)) named.now) result }
    {
        for naming in named {
            match self.check_append(alloc, store, *naming) {
                Ok(()) => {}
                Err(stop) => return Err(stop),
            }
        }
        Ok(())
    }

    /// Checks that each required column has a value.
    #[tactic(auto, unfolding(crate::specs::Creating::missing_fault))]
    fn check_required(&self, alloc: Global) -> Result<(), Stop>
        ensures { Answers (λ said. said
            ≡ missing_fault self.now.values.now (own_columns self.now.table.now)) result }
    {
        match first_missing(alloc, self.values, own_columns(self.table))? {
            None => Ok(()),
            Some(column) => Err(Stop::Refused(Refusal::RequiredMissing {
                column: column.name.copy(alloc)?,
            })),
        }
    }

    /// Checks that no row has the id.
    fn check_free_id(&self, store: &Store) -> Result<(), Stop>
        ensures { Answers (λ said. said ≡ refused_if (is_there store.now.present.rows
            (row_key self.now.number (new_id (creating_in store.now.present self.now)))) answer.IdTaken) result }
    {
        let is_taken = store.row(self.number, self.id(store)).is_some();
        refused_if(is_taken, Refusal::IdTaken)
    }

    /// Makes one of the checks. The new row and the rows that its lookups name are at hand.
    #[tactic(auto, unfolding(crate::specs::Creating::CreationSays))]
    fn judge(
        &self,
        alloc: Global,
        row: &Row,
        named: &[Naming],
        store: &Store,
        check: CreationCheck,
    ) -> Result<(), Stop>
        requires row { row.now ≡ new_row (creating_in store.now.present self.now) }
        requires named { named.now ≡ named_rows (creating_in store.now.present self.now) }
        ensures { Answers (CreationSays (creating_in store.now.present self.now) check) result }
    {
        match check {
            CreationCheck::Values => check_values(
                alloc,
                Writing::Creation,
                self.table.columns.as_slice(),
                self.values.as_slice(),
            ),
            CreationCheck::ChosenId => { refused_if(is_reserved(self.chosen), Refusal::ReservedId) }
            CreationCheck::NextId => {
                let has_none = self.chosen.is_none() && store.numbers().last_id == u64::MAX;
                refused_if(has_none, Refusal::Limit { what: What::Id })
            }
            CreationCheck::Owner => self.check_owner(alloc),
            CreationCheck::Privilege => self.check_privilege(alloc, Action::Create),
            CreationCheck::Append => self.check_all_append(alloc, store, named),
            CreationCheck::Required => self.check_required(alloc),
            CreationCheck::Named => check_all_named(alloc, store, &self.target(store), named),
            CreationCheck::FreeId => self.check_free_id(store),
            CreationCheck::Size => check_size(alloc, row.values.as_slice()),
        }
    }

    /// Makes checks in their order, up to the first that fails.
    #[tactic(auto, unfolding(dv_message::specs::Checked::AllPass, dv_message::specs::Checked::FirstSays))]
    pub fn judge_all(
        &self,
        alloc: Global,
        row: &Row,
        named: &[Naming],
        store: &Store,
        checks: &[CreationCheck],
    ) -> Result<(), Stop>
        requires row { row.now ≡ new_row (creating_in store.now.present self.now) }
        requires named { named.now ≡ named_rows (creating_in store.now.present self.now) }
        ensures { Walked (CreationSays (creating_in store.now.present self.now)) checks.now result }
    {
        for check in checks {
            match self.judge(alloc, row, named, store, *check) {
                Ok(()) => {}
                Err(stop) => return Err(stop),
            }
        }
        Ok(())
    }
}
