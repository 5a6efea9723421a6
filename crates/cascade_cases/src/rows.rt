//! Rows in words: `name=value ..`, a value being an id `#7` or the number of a state. Other columns are empty.
use crate::words::id_of;
use case_notation::Fault;
use dv_meta::Table;
use dv_store::Row;
use dv_value::Value;
use sqlite_items::Items;
use std::alloc::Global;

/// A row of these words.
pub fn row_of(alloc: Global, table: &Table, words: &[&str]) -> Result<Row, Fault> {
    let mut values = Items::new(alloc);
    for column in table.columns.as_slice() {
        if column.name.as_str() != "id" {
            values.push(value_in(column.name.as_str(), words)?)?;
        }
    }
    Ok(Row { values })
}

// The value of a column among the words.
fn value_in(column: &str, words: &[&str]) -> Result<Value, Fault> {
    for word in words {
        if let Some((name, value)) = word.split_once('=') {
            if name == column {
                return value_of(value);
            }
        }
    }
    Ok(Value::Empty)
}

fn value_of(word: &str) -> Result<Value, Fault> {
    if word.starts_with('#') {
        Ok(Value::Ref(id_of(word)?))
    } else {
        Ok(Value::Choice(word.parse::<i32>()?))
    }
}
