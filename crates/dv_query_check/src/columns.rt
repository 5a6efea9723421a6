//! Tables and columns by name.

ghost use Rattle.std.specs.Prelude.{◌≡◌, IfOk, option_map, position};
ghost use Rattle.dv_schema.specs.Names.{same_name};
ghost use Rattle.dv_query_check.specs.Columns.{table_named, column_named, is_reference, has_reference, unknown_in};
ghost use Rattle.dv_query_check.specs.Resolved.{column_number, column_numbers};

use dv_schema::{Column, Definition, Table};
use dv_value::{Kind, Text, items_with_capacity};
use sqlite_items::Items;
use std::alloc::{AllocError, Global};

/// The table of a name.
#[tactic(auto, unfolding(crate::specs::Columns::table_named))]
pub(crate) fn table_named<'a>(def: &'a Definition, name: &Text) -> Option<&'a Table>
    ensures { option_map (λ table. table.now) result ≡ table_named def.now name.now }
{
    def.tables().iter().find(|table| table.name == *name)
}

/// The column of a name.
#[tactic(auto, unfolding(crate::specs::Columns::column_named))]
pub(crate) fn column_named<'a>(table: &'a Table, name: &Text) -> Option<&'a Column>
    ensures { option_map (λ column. column.now) result ≡ column_named table.now name.now }
{
    let columns = table.columns.as_slice();
    columns.iter().find(|column| column.name == *name)
}

/// Whether a column of the kind holds ids.
#[tactic(auto, unfolding(crate::specs::Columns::is_reference))]
fn is_reference(kind: &Kind) -> bool
    ensures { result ≡ is_reference kind.now }
{
    match kind {
        Kind::Ref => true,
        Kind::Flag => false,
        Kind::Whole { .. } => false,
        Kind::Choice { .. } => false,
        Kind::Amount { .. } => false,
        Kind::Moment => false,
        Kind::Text { .. } => false,
    }
}

/// Whether there is a table, and it has a column of the name that holds ids.
#[tactic(auto, unfolding(crate::specs::Columns::has_reference))]
pub(crate) fn has_reference(table: Option<&Table>, name: &Text) -> bool
    ensures { result ≡ has_reference (option_map (λ t. t.now) table.entry) name.now }
{
    let Some(table) = table else {
        return false;
    };
    match column_named(table, name) {
        Some(column) => is_reference(&column.kind),
        None => false,
    }
}

/// The place of the first name that isn't a column of the table.
#[tactic(auto, unfolding(crate::specs::Columns::unknown_in))]
pub(crate) fn unknown_in(table: &Table, names: &[Text]) -> Option<usize>
    ensures { result ≡ unknown_in table.now names.now }
{
    names
        .iter()
        .position(|name| column_named(table, name).is_none())
}

/// The number of the column of a name, where there are a table and such a column.
#[tactic(auto, unfolding(crate::specs::Resolved::column_number))]
pub(crate) fn column_number(table: Option<&Table>, name: &Text) -> Option<usize>
    ensures { result ≡ column_number (option_map (λ t. t.now) table.entry) name.now }
{
    match table {
        Some(table) => place_of(table.columns.as_slice(), name),
        None => None,
    }
}

// The place of the column of a name.
fn place_of(columns: &[Column], name: &Text) -> Option<usize>
    ensures { result ≡ position (λ column. same_name column.name name.now) columns.now }
{
    columns.iter().position(|column| column.name == *name)
}

/// The numbers of columns, where each name is that of one.
#[tactic(auto, unfolding(crate::specs::Resolved::column_numbers))]
pub(crate) fn column_numbers(
    alloc: Global,
    table: Option<&Table>,
    names: &[Text],
) -> Result<Option<Items<usize>>, AllocError>
    ensures { IfOk result (λ numbers. numbers
        ≡ column_numbers (option_map (λ t. t.now) table.entry) names.now) }
{
    let mut numbers = items_with_capacity(alloc, names.len())?;
    for name in names {
        match column_number(table, name) {
            Some(number) => numbers.push(number)?,
            None => return Ok(None),
        }
    }
    Ok(Some(numbers))
}
