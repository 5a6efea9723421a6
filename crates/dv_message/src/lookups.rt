//! The lookups that a request gives a row, and what is checked of the rows that they name.
ghost use Rattle.std.specs.Prelude.{◌≡◌, ◌++◌, IfOk, OnOk};
ghost use Rattle.std.specs.Option.{option_copied};
ghost use Rattle.dv_message.specs.Checked.{Answers};
ghost use Rattle.dv_message.specs.Lookups.{naming_by, naming_in, naming_of, namings_of, namings, IsThere, NamedSays, AppendToSays};
ghost use Rattle.dv_message.specs.Scenes.{targeted_in};

use crate::columns::{given_by, is_named};
use crate::rights::check_right;
use crate::rows::{Target, check_row, of_key};
use crate::stop::Stop;
use dv_schema::{Action, Column, ColumnRole, Definition, Relationship};
use dv_store::{RowKey, Store};
use dv_value::{Raw, Text, Value, Values};
use sqlite_items::{Items, at};
use std::alloc::{AllocError, Global};

/// A lookup that a row is given: the number of its relationship, and the row that it names.
#[derive(Clone, Copy, Debug, PartialEq, Eq)]
pub struct Naming {
    pub relationship: u16,
    pub parent: RowKey,
}

/// Adds the row of a relationship's parent table that a value names, if it names one.
fn add_named(
    named: &mut Items<Naming>,
    number: u16,
    relationship: Option<&Relationship>,
    value: &Value,
) -> Result<(), AllocError>
    ensures { OnOk result (named.new ≡ named.old
        ++ naming_by number (option_copied relationship.entry) value.now) }
{
    let Some(relationship) = relationship else {
        return Ok(());
    };
    match value {
        Value::Ref(id) => named.push(Naming {
            relationship: number,
            parent: RowKey {
                table: relationship.parent,
                id: *id,
            },
        }),
        _ => Ok(()),
    }
}

/// Adds the row that a value names which is given for a column, if the column is a lookup.
#[tactic(auto, unfolding(crate::specs::Lookups::naming_in))]
fn add_in(
    alloc: Global,
    named: &mut Items<Naming>,
    definition: &Definition,
    column: &Column,
    raw: &Raw,
) -> Result<(), AllocError>
    ensures { OnOk result (named.new ≡ named.old
        ++ naming_in definition.now column.now.kind column.now.role raw.now) }
{
    match &column.role {
        ColumnRole::Lookup(number) => {
            let value = given_by(alloc, &column.kind, Some(raw))?;
            let relationship = at(definition.relationships(), usize::from(*number));
            add_named(named, *number, relationship, &value)
        }
        _ => Ok(()),
    }
}

/// Adds the row that a given value names in a column, if it is given for that column.
fn add_given(
    alloc: Global,
    named: &mut Items<Naming>,
    definition: &Definition,
    column: &Column,
    given: &(Text, Raw),
) -> Result<(), AllocError>
    ensures { OnOk result (named.new ≡ named.old
        ++ naming_of definition.now given.now column.now) }
{
    if !is_named(&column.name, given.0.as_str()) {
        return Ok(());
    }
    add_in(alloc, named, definition, column, &given.1)
}

/// Adds the row that a given value names in the column of its name.
fn add_namings(
    alloc: Global,
    named: &mut Items<Naming>,
    definition: &Definition,
    columns: &[Column],
    given: &(Text, Raw),
) -> Result<(), AllocError>
    ensures { OnOk result (named.new ≡ named.old
        ++ namings_of definition.now columns.now given.now) }
{
    for column in columns {
        add_given(alloc, named, definition, column, given)?;
    }
    Ok(())
}

/// The rows that the lookups name which are given, in the order of the columns' names.
pub fn namings(
    alloc: Global,
    definition: &Definition,
    columns: &[Column],
    values: &Values,
) -> Result<Items<Naming>, AllocError>
    ensures { IfOk result (λ named. named ≡ namings definition.now columns.now values.now) }
{
    let mut named = Items::new(alloc);
    for given in values.as_slice() {
        add_namings(alloc, &mut named, definition, columns, given)?;
    }
    Ok(named)
}

/// Checks that a row that is named is there.
fn check_named(
    alloc: Global,
    store: &Store,
    target: &Target<'_>,
    naming: Naming,
) -> Result<(), Stop>
    ensures { Answers (IsThere (targeted_in store.now.present target.now) naming) result }
{
    check_row(alloc, store, &of_key(target, naming.parent))
}

/// Checks that the rows that are named are there, up to the first that isn't.
#[tactic(auto, unfolding(crate::specs::Lookups::NamedSays, crate::specs::Checked::AllPass, crate::specs::Checked::FirstSays))]
pub fn check_all_named(
    alloc: Global,
    store: &Store,
    target: &Target<'_>,
    named: &[Naming],
) -> Result<(), Stop>
    ensures { Answers (NamedSays (targeted_in store.now.present target.now) named.now) result }
{
    for naming in named {
        match check_named(alloc, store, target, *naming) {
            Ok(()) => {}
            Err(stop) => return Err(stop),
        }
    }
    Ok(())
}

/// Checks that a row that is named is there, and that the user may append to it.
pub fn check_append_to(
    alloc: Global,
    store: &Store,
    target: &Target<'_>,
    naming: Naming,
) -> Result<(), Stop>
    ensures { Answers (AppendToSays (targeted_in store.now.present target.now) naming) result }
{
    let parent = of_key(target, naming.parent);
    match check_row(alloc, store, &parent) {
        Ok(()) => check_right(alloc, store, &parent, Action::AppendTo),
        Err(stop) => Err(stop),
    }
}
