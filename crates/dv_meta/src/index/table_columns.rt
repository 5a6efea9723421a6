//! The columns of each table by name, numbered as an accepted definition numbers them.
ghost use Rattle.std.specs.Prelude.{◌≡◌, ◌++◌, ◌+◌, ◌<◌, ◌≤◌, ℕ, List, length, flat_map, slice_get, Some, IfOk, OnOk};
ghost use Rattle.dv_schema.specs.declared.draft.DraftTable.{DraftTable};
ghost use Rattle.dv_meta.specs.Columns.{names_of, column_names};
ghost use Rattle.dv_meta.specs.Index.{Finds, FindsColumns, FindsEach, FindsMore, HaveFewColumns};
ghost use Rattle.dv_schema.specs.Names.{Name};

use crate::index::names::Numbers;
use crate::index::numbering::numbers_of;
use crate::spelling::with_ending;
use crate::system::system_columns;
use dv_schema::{DraftColumn, DraftForm, DraftTable};
use std::alloc::{AllocError, Global};

/// The columns of a table by name.
#[derive(Drop)]
pub(crate) struct Columns {
    /// All columns, with their numbers.
    pub(crate) all: Numbers,
    /// The definition's own columns, with their places in its list.
    pub(crate) own: Numbers,
}

pub(crate) fn columns_of_each(
    alloc: Global,
    tables: &[DraftTable],
) -> Result<Vec<Columns>, AllocError>
    requires { HaveFewColumns tables.now }
    ensures { IfOk result (λ columns. FindsEach columns.items tables.now) }
{
    let mut columns = Vec::new(alloc);
    for table in tables {
        columns.push(columns_of(alloc, table)?)?;
    }
    Ok(columns)
}

fn columns_of(alloc: Global, table: &DraftTable) -> Result<Columns, AllocError>
    requires { length table.now.columns ≤ 60 }
    ensures { IfOk result (λ columns. FindsColumns columns table.now) }
{
    Ok(Columns {
        all: column_numbers(alloc, table)?,
        own: numbers_of(alloc, table.columns.as_slice())?,
    })
}

fn column_numbers(alloc: Global, table: &DraftTable) -> Result<Numbers, AllocError>
    requires { length table.now.columns ≤ 60 }
    ensures { IfOk result (λ numbers. Finds numbers (column_names table.now)) }
{
    let system = system_columns(alloc, table.user_owned)?;
    let mut numbers = numbers_of(alloc, system.as_slice())?;
    number_columns(alloc, &mut numbers, table.columns.as_slice(), system.len())?;
    Ok(numbers)
}

// Numbers the names of columns from a number on.
fn number_columns(
    alloc: Global,
    numbers: &mut Numbers,
    columns: &[DraftColumn],
    first: usize,
) -> Result<(), AllocError>
    requires few { length columns.now ≤ 60 }
    requires first { first ≤ 8 }
    ensures { OnOk result (FindsMore numbers.old numbers.new first
        (flat_map names_of columns.now)) }
{
    let mut next = first;
    for column in columns {
        next = number_column(alloc, numbers, column, next)?;
    }
    Ok(())
}

// Numbers the names of a column from a number on, and tells the next one.
fn number_column(
    alloc: Global,
    numbers: &mut Numbers,
    column: &DraftColumn,
    next: usize,
) -> Result<usize, AllocError>
    requires { next < 1000 }
    ensures next { IfOk result (λ after. after ≡ next + length (names_of column.now)) }
    ensures finds { OnOk result (FindsMore numbers.old numbers.new next (names_of column.now)) }
{
    numbers.add(column.name.copy(alloc)?, next)?;
    match &column.form {
        DraftForm::Plain(_) => Ok(next + 1),
        DraftForm::Lookup => Ok(next + 1),
        DraftForm::Rollup(_) => {
            numbers.add(with_ending(alloc, &column.name, "_state")?, next + 1)?;
            numbers.add(with_ending(alloc, &column.name, "_date")?, next + 2)?;
            Ok(next + 3)
        }
    }
}
