//! Rows in words: `name=value ..`, where columns that aren't named are empty.
use crate::scene::id_of;
use case_notation::Fault;
use dv_meta::{Column, Table};
use dv_store::Row;
use dv_value::{Kind, Text, Value};
use sqlite_items::Items;
use std::alloc::{AllocError, Global};

/// A row of these words.
pub fn row_of(alloc: Global, table: &Table, words: &[&str]) -> Result<Row, Fault> {
    let mut values = Items::new(alloc);
    for column in table.columns.as_slice() {
        if column.name.as_str() != "id" {
            values.push(value_in(alloc, column, words)?)?;
        }
    }
    Ok(Row { values })
}

// The value of a column among the words.
fn value_in(alloc: Global, column: &Column, words: &[&str]) -> Result<Value, Fault> {
    for word in words {
        if let Some((name, value)) = word.split_once('=') {
            if name == column.name.as_str() {
                return value_of(alloc, &column.kind, value);
            }
        }
    }
    Ok(Value::Empty)
}

/// The value of a kind of a word.
pub fn value_of(alloc: Global, kind: &Kind, word: &str) -> Result<Value, Fault> {
    if word == "empty" {
        return Ok(Value::Empty);
    }
    match kind {
        Kind::Flag => Ok(Value::Flag(word == "true")),
        Kind::Whole { .. } => Ok(Value::Whole(short_of(word)?)),
        Kind::Choice { .. } => Ok(Value::Choice(short_of(word)?)),
        Kind::Amount { .. } => Ok(Value::Amount(long_of(word)?)),
        Kind::Moment => Ok(Value::Moment(long_of(word)?)),
        Kind::Text { .. } => text_of(alloc, word),
        Kind::Ref => Ok(Value::Ref(id_of(word)?)),
    }
}

// The number of a word.
fn short_of(word: &str) -> Result<i32, Fault> {
    Ok(word.parse::<i32>()?)
}

// The number of a word, which may be greater.
fn long_of(word: &str) -> Result<i64, Fault> {
    Ok(word.parse::<i64>()?)
}

// The text of a word.
fn text_of(alloc: Global, word: &str) -> Result<Value, Fault> {
    let text = Text::from_str(alloc, word)?;
    Ok(Value::Text(text))
}

/// Writes a row's values that aren't empty, each behind its column's name and `=`.
pub fn show_row(table: &Table, row: &Row, out: &mut String) -> Result<(), AllocError> {
    let mut place: usize = 0;
    for column in table.columns.as_slice() {
        if column.name.as_str() != "id" {
            if let Some(value) = row.values.get(place) {
                show_value(column.name.as_str(), value, out)?;
            }
            place = place.saturating_add(1);
        }
    }
    Ok(())
}

fn show_value(name: &str, value: &Value, out: &mut String) -> Result<(), AllocError> {
    match value {
        Value::Empty => Ok(()),
        Value::Flag(flag) => write!(out, " {name}={flag}"),
        Value::Whole(number) | Value::Choice(number) => {
            show_number(name, i64::from(*number), out)
        }
        Value::Amount(number) | Value::Moment(number) => show_number(name, *number, out),
        Value::Text(text) => write!(out, " {name}={}", text.as_str()),
        Value::Ref(id) => write!(out, " {name}=#{}", id.0),
    }
}

fn show_number(name: &str, number: i64, out: &mut String) -> Result<(), AllocError> {
    write!(out, " {name}={number}")
}
