//! The columns of a table, and the values that a request gives them.
ghost use Rattle.std.specs.Prelude.{◌≡◌, IfOk, IsErrOf, Ok, Err, chars, map, option_map};
ghost use Rattle.std.specs.Str.{bytes_eq};
ghost use Rattle.std.specs.Option.{option_copied};
ghost use Rattle.dv_message.specs.Checked.{Answers};
ghost use Rattle.dv_message.specs.Columns.{column_of, own_columns, is_written_by, open_name, has_scale, typed_in, type_fault, value_fault, values_fault, given_by, given_in, is_empty, earlier};

use crate::stop::Stop;
use dv_refusal::Refusal;
use dv_schema::{Column, ColumnRole, Table};
use dv_value::{Kind, Raw, Text, TypeFault, Value, Values, type_raw};
use sqlite_items::Items;
use std::alloc::{AllocError, Global};

/// Whether a text is a name.
pub(crate) fn is_named(text: &Text, name: &str) -> bool
    ensures { result ≡ bytes_eq text.now (chars name.now) }
{
    text.is(name)
}

/// The column of a name.
pub fn column_of<'a>(columns: &'a [Column], name: &Text) -> Option<&'a Column>
    ensures { option_copied result ≡ column_of columns.now name.now }
{
    columns
        .iter()
        .find(|column| is_named(&column.name, name.as_str()))
}

/// The columns of a table that its definition lists, behind those that the service keeps itself.
pub fn own_columns(table: &Table) -> &[Column]
    ensures { result.now ≡ own_columns table.now }
{
    let columns = table.columns.as_slice();
    let count = if table.user_owned { 8 } else { 7 };
    &columns[count.min(columns.len())..]
}

/// What values are given for.
#[derive(Clone, Copy, Debug, PartialEq, Eq)]
pub enum Writing {
    /// For a row that is made.
    Creation,
    /// For a row that is changed.
    Update,
}

/// The system column that a request may write: the owner of a new row, and whether a row is active later.
#[tactic(auto, unfolding(crate::specs::Columns::open_name))]
fn open_name(writing: Writing) -> &'static str
    ensures { result.now ≡ open_name writing }
{
    match writing {
        Writing::Creation => "ownerid",
        Writing::Update => "statecode",
    }
}

/// Whether a request may write a column.
#[tactic(auto, unfolding(crate::specs::Columns::is_written_by))]
fn is_written_by(writing: Writing, role: &ColumnRole, name: &Text) -> bool
    ensures { result ≡ is_written_by writing role.now name.now }
{
    match role {
        ColumnRole::Plain => true,
        ColumnRole::System => is_named(name, open_name(writing)),
        ColumnRole::Lookup(_) => true,
        ColumnRole::Rollup(_) => false,
        ColumnRole::Companion => false,
    }
}

/// Whether a kind is one that values can be typed by.
#[tactic(auto, unfolding(crate::specs::Columns::has_scale))]
pub(crate) fn has_scale(kind: &Kind) -> bool
    ensures { result ≡ has_scale kind.now }
{
    match kind {
        Kind::Amount { scale } => *scale <= 4,
        Kind::Flag => true,
        Kind::Whole { .. } => true,
        Kind::Choice { .. } => true,
        Kind::Moment => true,
        Kind::Text { .. } => true,
        Kind::Ref => true,
    }
}

/// The value that a raw value is in a column of a kind.
#[tactic(auto, using(crate::proofs::Fitting::has_scale_is))]
fn typed_in(alloc: Global, kind: &Kind, raw: &Raw) -> Result<Value, TypeFault>
    ensures ok { IfOk result (λ value. typed_in kind.now raw.now ≡ Ok value) }
    ensures wrong_type { IsErrOf result TypeFault.WrongType
        → typed_in kind.now raw.now ≡ Err TypeFault.WrongType }
    ensures out_of_range { IsErrOf result TypeFault.OutOfRange
        → typed_in kind.now raw.now ≡ Err TypeFault.OutOfRange }
{
    if !has_scale(kind) {
        return Err(TypeFault::WrongType);
    }
    type_raw(alloc, kind, raw)
}

/// Checks a value as one of its column.
#[tactic(auto, unfolding(crate::specs::Columns::type_fault))]
fn check_type(alloc: Global, kind: &Kind, value: &(Text, Raw)) -> Result<(), Stop>
    ensures { Answers (λ said. said ≡ type_fault value.now.0 (typed_in kind.now value.now.1)) result }
{
    match typed_in(alloc, kind, &value.1) {
        Ok(_) => Ok(()),
        Err(TypeFault::WrongType) => Err(Stop::Refused(Refusal::WrongType {
            column: value.0.copy(alloc)?,
        })),
        Err(TypeFault::OutOfRange) => Err(Stop::Refused(Refusal::OutOfRange {
            column: value.0.copy(alloc)?,
        })),
        Err(TypeFault::OutOfMemory) => Err(Stop::OutOfMemory),
    }
}

/// Checks a value that a row is given.
#[tactic(auto, unfolding(crate::specs::Columns::value_fault))]
fn check_value(
    alloc: Global,
    writing: Writing,
    columns: &[Column],
    value: &(Text, Raw),
) -> Result<(), Stop>
    ensures { Answers (λ said. said ≡ value_fault writing columns.now value.now) result }
{
    let Some(column) = column_of(columns, &value.0) else {
        return Err(Stop::Refused(Refusal::UnknownColumn {
            column: value.0.copy(alloc)?,
        }));
    };
    if !is_written_by(writing, &column.role, &column.name) {
        return Err(Stop::Refused(Refusal::NotWritable {
            column: value.0.copy(alloc)?,
        }));
    }
    check_type(alloc, &column.kind, value)
}

/// Checks the values that a row is given, in the order of their names: each is one of a column that may be written, and of
/// its type.
#[tactic(auto, unfolding(crate::specs::Columns::values_fault))]
pub fn check_values(
    alloc: Global,
    writing: Writing,
    columns: &[Column],
    values: &[(Text, Raw)],
) -> Result<(), Stop>
    ensures { Answers (λ said. said ≡ values_fault writing columns.now values.now) result }
{
    for value in values {
        match check_value(alloc, writing, columns, value) {
            Ok(()) => {}
            Err(stop) => return Err(stop),
        }
    }
    Ok(())
}

/// What a raw value is in a column of a kind; Empty where none is given, or one that isn't of the column.
#[tactic(auto, unfolding(crate::specs::Columns::given_by))]
pub fn given_by(alloc: Global, kind: &Kind, raw: Option<&Raw>) -> Result<Value, AllocError>
    ensures { IfOk result (λ value. value
        ≡ given_by kind.now (option_map (λ given. given.now) raw.entry)) }
{
    let Some(raw) = raw else {
        return Ok(Value::Empty);
    };
    match typed_in(alloc, kind, raw) {
        Ok(value) => Ok(value),
        Err(TypeFault::WrongType) => Ok(Value::Empty),
        Err(TypeFault::OutOfRange) => Ok(Value::Empty),
        Err(TypeFault::OutOfMemory) => Err(AllocError),
    }
}

/// The values of a new row in the columns of the definition.
pub fn own_values(
    alloc: Global,
    columns: &[Column],
    values: &Values,
) -> Result<Items<Value>, AllocError>
    ensures { IfOk result (λ own. own ≡ map (given_in values.now) columns.now) }
{
    let mut own = Items::new(alloc);
    for column in columns {
        let given = values.get(column.name.as_str());
        own.push(given_by(alloc, &column.kind, given)?)?;
    }
    Ok(own)
}

/// Whether a value is empty.
pub fn is_empty(value: &Value) -> bool
    ensures { result ≡ is_empty value.now }
{
    match value {
        Value::Empty => true,
        _ => false,
    }
}

/// The one of two columns whose name comes first in byte order.
pub fn earlier<'a>(column: &'a Column, other: Option<&'a Column>) -> &'a Column
    ensures { result.now ≡ earlier column.now (option_copied other.entry) }
{
    match other {
        Some(other) if column.name > other.name => other,
        _ => column,
    }
}
