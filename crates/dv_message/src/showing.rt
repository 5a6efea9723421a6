//! Rows as they are shown.
ghost use Rattle.std.specs.Prelude.{◌≡◌, IfOk, OnOk, slice_get};
ghost use Rattle.std.specs.List.{list_any};
ghost use Rattle.std.specs.Option.{option_copied};
ghost use Rattle.std.specs.Str.{bytes_eq};
ghost use Rattle.serde_json.specs.Data.{no_members};
ghost use Rattle.serde_json.specs.View.{members_view};
ghost use Rattle.dv_value.specs.Spelling.{tag_of};
ghost use Rattle.dv_value.specs.Typing.{kind_tag};
ghost use Rattle.dv_message.specs.Showing.{value_at, has_spelling, is_of, IsShown, is_among, is_asked, asked_from, ShowsColumn, ShowsColumns, IsShownRow};

use crate::columns::{has_scale, is_named};
use dv_schema::Column;
use dv_store::Row;
use dv_value::{Id, Kind, Names, Raw, Text, Value, Values, add_member, raw_of};
use serde_json::{Map, Value as Json};
use sqlite_items::at;
use std::alloc::{AllocError, Global};

/// The number of the id among the columns of a table.
const ID_NUMBER: usize = 2;

/// The first and the last moment that has a text.
const FIRST_MOMENT: i64 = -62_135_596_800;

const LAST_MOMENT: i64 = 253_402_300_799;

/// The number of the kind of a value.
#[tactic(auto, unfolding(dv_value::specs::Spelling::tag_of))]
fn tag_of(value: &Value) -> u8
    ensures { result ≡ tag_of value.now }
{
    match value {
        Value::Empty => 0,
        Value::Flag(_) => 1,
        Value::Whole(_) => 2,
        Value::Choice(_) => 3,
        Value::Amount(_) => 4,
        Value::Moment(_) => 5,
        Value::Text(_) => 6,
        Value::Ref(_) => 7,
    }
}

/// The number of the values of a kind.
#[tactic(auto, unfolding(dv_value::specs::Typing::kind_tag))]
fn kind_tag(kind: &Kind) -> u8
    ensures { result ≡ kind_tag kind.now }
{
    match kind {
        Kind::Flag => 1,
        Kind::Whole { .. } => 2,
        Kind::Choice { .. } => 3,
        Kind::Amount { .. } => 4,
        Kind::Moment => 5,
        Kind::Text { .. } => 6,
        Kind::Ref => 7,
    }
}

/// Whether a value has a text.
#[tactic(auto, unfolding(crate::specs::Showing::has_spelling))]
fn has_spelling(value: &Value) -> bool
    ensures { result ≡ has_spelling value.now }
{
    match value {
        Value::Moment(seconds) => FIRST_MOMENT <= *seconds && *seconds <= LAST_MOMENT,
        Value::Text(text) => text.as_str().len() < 4_294_967_296,
        Value::Empty => true,
        Value::Flag(_) => true,
        Value::Whole(_) => true,
        Value::Choice(_) => true,
        Value::Amount(_) => true,
        Value::Ref(_) => true,
    }
}

/// Whether a value is one of a kind, or Empty, so that it can be shown as one.
fn is_of(kind: &Kind, value: &Value) -> bool
    ensures { result ≡ is_of kind.now value.now }
{
    if !has_scale(kind) {
        return false;
    }
    let tag = tag_of(value);
    if tag != 0 && tag != kind_tag(kind) {
        return false;
    }
    has_spelling(value)
}

/// A value as the kind of its column writes it.
#[tactic(auto, using(crate::proofs::Fitting::has_scale_is, crate::proofs::Fitting::has_spelling_is))]
fn show_value(alloc: Global, kind: &Kind, value: &Value) -> Result<Raw, AllocError>
    ensures { IfOk result (IsShown kind.now value.now) }
{
    if !is_of(kind, value) {
        return Ok(Raw::Null);
    }
    raw_of(alloc, kind, value)
}

/// The value of a row in the column of a number.
fn show_number(
    alloc: Global,
    kind: &Kind,
    id: Id,
    row: &Row,
    number: usize,
) -> Result<Raw, AllocError>
    ensures { IfOk result (IsShown kind.now (value_at id row.now number)) }
{
    if number == ID_NUMBER {
        return show_value(alloc, kind, &Value::Ref(id));
    }
    let place = if number > ID_NUMBER {
        number - 1
    } else {
        number
    };
    match row.values.get(place) {
        Some(value) => show_value(alloc, kind, value),
        None => show_value(alloc, kind, &Value::Empty),
    }
}

/// Puts a column of a row into an object.
fn show_column(
    alloc: Global,
    column: Option<&Column>,
    id: Id,
    row: &Row,
    number: usize,
    members: &mut Map<String, Json>,
) -> Result<(), AllocError>
    ensures { OnOk result (ShowsColumn id row.now number (option_copied column.entry)
        (members_view members.old.entries) (members_view members.new.entries)) }
{
    let Some(column) = column else {
        return Ok(());
    };
    let shown = show_number(alloc, &column.kind, id, row, number)?;
    add_member(alloc, members, column.name.as_str(), shown.to_json(alloc)?)
}

/// Puts the columns of these numbers into an object.
#[tactic(auto, unfolding(crate::specs::Showing::ShowsColumns))]
fn show_columns(
    alloc: Global,
    columns: &[Column],
    numbers: &[usize],
    id: Id,
    row: &Row,
    members: &mut Map<String, Json>,
) -> Result<(), AllocError>
    ensures { OnOk result (ShowsColumns columns.now id row.now numbers.now
        (members_view members.old.entries) (members_view members.new.entries)) }
{
    for number in numbers {
        show_column(alloc, at(columns, *number), id, row, *number, members)?;
    }
    Ok(())
}

/// A row as it is shown: an object with the columns of these numbers.
pub fn show_row(
    alloc: Global,
    columns: &[Column],
    numbers: &[usize],
    id: Id,
    row: &Row,
) -> Result<Values, AllocError>
    ensures { IfOk result (IsShownRow columns.now numbers.now id row.now) }
{
    let mut members = Map::new(alloc);
    show_columns(alloc, columns, numbers, id, row, &mut members)?;
    match Values::from_json(alloc, members)? {
        Some(shown) => Ok(shown),
        None => Ok(Values::new(alloc)),
    }
}

/// Whether a name is one of some names.
fn has_name(names: &[Text], name: &Text) -> bool
    ensures { result ≡ list_any (λ asked. bytes_eq asked name.now) names.now }
{
    names.iter().any(|asked| asked.is(name.as_str()))
}

/// Whether a name is that of the id or one of some names.
fn is_among(names: &[Text], name: &Text) -> bool
    ensures { result ≡ is_among names.now name.now }
{
    if is_named(name, "id") {
        return true;
    }
    has_name(names, name)
}

/// Whether a column is asked for.
fn is_asked(names: &Option<Names>, name: &Text) -> bool
    ensures { result ≡ is_asked names.now name.now }
{
    match names {
        None => true,
        Some(names) => is_among(names.as_slice(), name),
    }
}

/// The numbers of the columns that are asked for.
#[tactic(auto, unfolding(crate::specs::Showing::asked_from))]
pub fn asked_numbers(
    alloc: Global,
    names: &Option<Names>,
    columns: &[Column],
) -> Result<Vec<usize>, AllocError>
    ensures { IfOk result (λ numbers. numbers.items ≡ asked_from 0 names.now columns.now) }
{
    let mut numbers = Vec::new(alloc);
    for (number, column) in columns.iter().enumerate() {
        if is_asked(names, &column.name) {
            numbers.push(number)?;
        }
    }
    Ok(numbers)
}
