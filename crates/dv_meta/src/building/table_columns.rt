//! A table with its columns numbered, each rollup followed by its companions.
ghost use Rattle.std.specs.Prelude.{◌≡◌, ◌++◌, chars, flat_map, IfOk, OnOk};
ghost use Rattle.dv_meta.specs.Accepted.{any_whole, unlimited, rollup_kind, rollup_of, columns_of, rollup_column, companion, table_of};
ghost use Rattle.dv_meta.specs.Index.{IsIndexOf};
ghost use Rattle.dv_schema.specs.Limits.{IsWithinLimits};

use crate::building::copies::copy_kind;
use crate::building::numbers::{lookup_number, relationship_number, source_number};
use crate::index::Index;
use crate::index::lookup::source_of;
use crate::spelling::with_ending;
use crate::system::system_columns;
use dv_schema::{
    Column, ColumnRole, Draft, DraftColumn, DraftForm, DraftRollup, DraftTable, Rollup, Table,
};
use dv_value::{Kind, Text};
use sqlite_items::Items;
use std::alloc::{AllocError, Global};

fn any_whole() -> Kind
    ensures { result ≡ any_whole }
{
    Kind::Whole {
        min: i32::MIN,
        max: i32::MAX,
    }
}

// A kind without its limits.
fn unlimited(form: &DraftForm) -> Kind
    ensures { result ≡ unlimited form.now }
{
    match form {
        DraftForm::Plain(kind) => match kind {
            Kind::Amount { scale } => Kind::Amount { scale: *scale },
            Kind::Whole { .. } => any_whole(),
            Kind::Flag | Kind::Choice { .. } | Kind::Moment | Kind::Text { .. } | Kind::Ref =>
                any_whole(),
        },
        DraftForm::Lookup => any_whole(),
        DraftForm::Rollup(_) => any_whole(),
    }
}

#[tactic(auto, unfolding(crate::specs::Accepted::rollup_kind))]
fn rollup_kind(draft: &Draft, index: &Index, rollup: &DraftRollup) -> Kind
    requires { IsIndexOf draft.now index.now }
    ensures { result ≡ rollup_kind draft.now rollup.now }
{
    match &rollup.of {
        Some(name) => match source_of(draft, index, rollup) {
            Some(found) => match found.own_column(name) {
                Some(column) => unlimited(&column.form),
                None => any_whole(),
            },
            None => any_whole(),
        },
        None => any_whole(),
    }
}

#[tactic(auto, unfolding(crate::specs::Accepted::rollup_of))]
fn rollup_of(draft: &Draft, index: &Index, rollup: &DraftRollup) -> Rollup
    requires index { IsIndexOf draft.now index.now }
    requires limits { IsWithinLimits draft.now }
    ensures { result ≡ rollup_of draft.now rollup.now }
{
    Rollup {
        kind: rollup.kind,
        over: relationship_number(draft, index, &rollup.over),
        of: source_number(draft, index, rollup),
        active: rollup.active,
    }
}

#[tactic(auto, unfolding(crate::specs::Accepted::table_of))]
pub(crate) fn table_of(
    alloc: Global,
    draft: &Draft,
    index: &Index,
    table: &DraftTable,
) -> Result<Table, AllocError>
    requires index { IsIndexOf draft.now index.now }
    requires limits { IsWithinLimits draft.now }
    ensures { IfOk result (λ built. built ≡ table_of draft.now table.now) }
{
    let mut columns = system_columns(alloc, table.user_owned)?;
    add_each(
        alloc,
        draft,
        index,
        table,
        table.columns.as_slice(),
        &mut columns,
    )?;
    Ok(Table {
        name: table.name.copy(alloc)?,
        user_owned: table.user_owned,
        tracking: table.tracking,
        columns,
    })
}

// Adds what the listed columns of a table become.
fn add_each(
    alloc: Global,
    draft: &Draft,
    index: &Index,
    table: &DraftTable,
    listed: &[DraftColumn],
    into: &mut Items<Column>,
) -> Result<(), AllocError>
    requires index { IsIndexOf draft.now index.now }
    requires limits { IsWithinLimits draft.now }
    ensures { OnOk result (into.new
        ≡ into.old ++ flat_map (columns_of draft.now table.now) listed.now) }
{
    for column in listed {
        add_columns(alloc, draft, index, table, column, into)?;
    }
    Ok(())
}

// The columns that a column of the text becomes are added at the end.
#[tactic(auto, unfolding(crate::specs::Accepted::columns_of))]
fn add_columns(
    alloc: Global,
    draft: &Draft,
    index: &Index,
    table: &DraftTable,
    column: &DraftColumn,
    into: &mut Items<Column>,
) -> Result<(), AllocError>
    requires index { IsIndexOf draft.now index.now }
    requires limits { IsWithinLimits draft.now }
    ensures { OnOk result (into.new ≡ into.old ++ columns_of draft.now table.now column.now) }
{
    let name = column.name.copy(alloc)?;
    let required = column.required;
    match &column.form {
        DraftForm::Plain(kind) => {
            let kind = copy_kind(alloc, kind)?;
            let role = ColumnRole::Plain;
            into.push(Column {
                name,
                kind,
                required,
                role,
            })
        }
        DraftForm::Lookup => {
            let role = ColumnRole::Lookup(lookup_number(draft, index, &table.name, &column.name));
            into.push(Column {
                name,
                kind: Kind::Ref,
                required,
                role,
            })
        }
        DraftForm::Rollup(rollup) => {
            let state = companion(alloc, &name, "_state", any_whole())?;
            let date = companion(alloc, &name, "_date", Kind::Moment)?;
            into.push(rollup_column(draft, index, name, required, rollup))?;
            into.push(state)?;
            into.push(date)?;
            Ok(())
        }
    }
}

fn rollup_column(
    draft: &Draft,
    index: &Index,
    name: Text,
    required: bool,
    rollup: &DraftRollup,
) -> Column
    requires index { IsIndexOf draft.now index.now }
    requires limits { IsWithinLimits draft.now }
    ensures { result ≡ rollup_column draft.now name required rollup.now }
{
    Column {
        name,
        kind: rollup_kind(draft, index, rollup),
        required,
        role: ColumnRole::Rollup(rollup_of(draft, index, rollup)),
    }
}

fn companion(alloc: Global, name: &Text, ending: &str, kind: Kind) -> Result<Column, AllocError>
    ensures { IfOk result (λ column. column ≡ companion (name.now ++ chars ending.now) kind) }
{
    Ok(Column {
        name: with_ending(alloc, name, ending)?,
        kind,
        required: false,
        role: ColumnRole::Companion,
    })
}
