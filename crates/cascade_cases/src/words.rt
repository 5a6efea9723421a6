//! The words that name parts of a definition and rows.
use case_notation::{Fault, found};
use dv_cascade::Cascading;
use dv_meta::{Definition, Table};
use dv_store::RowKey;
use dv_value::Id;
use std::alloc::{AllocError, Global};

/// The words between the blanks of a line.
pub fn words_of<'a>(alloc: Global, line: &'a str) -> Result<Vec<&'a str>, AllocError> {
    let mut words = Vec::new(alloc);
    for word in line.split(' ') {
        words.push(word)?;
    }
    Ok(words)
}

/// The row of a word `TABLE#7`.
pub fn key_of(definition: &Definition, word: &str) -> Result<RowKey, Fault> {
    let Some((table, number)) = word.split_once('#') else {
        return Err(Fault::Wrong("no row"));
    };
    Ok(RowKey {
        table: found(definition.table(table), "no table")?,
        id: Id(number.parse::<u128>()?),
    })
}

/// The rows of such words.
pub fn keys_of(
    alloc: Global,
    definition: &Definition,
    words: &[&str],
) -> Result<Vec<RowKey>, Fault> {
    let mut keys = Vec::new(alloc);
    for word in words {
        let key = key_of(definition, word)?;
        keys.push(key)?;
    }
    Ok(keys)
}

/// The table of a number.
pub fn table_at(definition: &Definition, number: u16) -> Result<&Table, Fault> {
    match definition.tables().get(usize::from(number)) {
        Some(table) => Ok(table),
        None => Err(Fault::Wrong("no table")),
    }
}

/// The id of a word `#7`.
pub fn id_of(word: &str) -> Result<Id, Fault> {
    let number = found(word.strip_prefix('#'), "no id")?;
    Ok(Id(number.parse::<u128>()?))
}

/// What is done to a row, by its word.
pub fn cascading_of(word: &str) -> Result<Cascading, Fault> {
    match word {
        "assign" => Ok(Cascading::Assign),
        "share" => Ok(Cascading::Share),
        "unshare" => Ok(Cascading::Unshare),
        "reparent" => Ok(Cascading::Reparent),
        "delete" => Ok(Cascading::Delete),
        _ => Err(Fault::Wrong("nothing that is done to a row")),
    }
}
