//! A store with the definition that it was made of, and the words that name its parts.
use case_notation::{Fault, bytes_of, found};
use dv_meta::{DefFault, Definition, Table, read_definition};
use dv_store::{RowKey, Store};
use dv_value::Id;
use std::alloc::{AllocError, Global};
use std::fs;

/// A store with the definition that it was made of.
#[derive(Drop)]
pub struct Scene<'a> {
    pub definition: &'a Definition,
    pub store: Store,
    pub alloc: Global,
}

impl<'a> Scene<'a> {
    /// A store with nothing in it.
    pub fn new(alloc: Global, definition: &'a Definition) -> Result<Scene<'a>, AllocError> {
        let store = Store::new(alloc, definition)?;
        Ok(Scene {
            definition,
            store,
            alloc,
        })
    }

    /// The number of the table of a name.
    pub fn table(&self, name: &str) -> Result<u16, Fault> {
        found(self.definition.table(name), "no table")
    }

    /// The place of the row of these words.
    pub fn row_key(&self, table: &str, id: &str) -> Result<RowKey, Fault> {
        let table = self.table(table)?;
        let id = id_of(id)?;
        Ok(RowKey { table, id })
    }

    /// The table of a number.
    pub fn table_at(&self, number: u16) -> Result<&Table, Fault> {
        match self.definition.tables().get(usize::from(number)) {
            Some(table) => Ok(table),
            None => Err(Fault::Wrong("no table")),
        }
    }

    /// The number of the relationship of a name.
    pub fn relationship(&self, name: &str) -> Result<u16, Fault> {
        let mut number: u16 = 0;
        for relationship in self.definition.relationships() {
            if relationship.name.as_str() == name {
                return Ok(number);
            }
            number = number.saturating_add(1);
        }
        Err(Fault::Wrong("no relationship"))
    }
}

/// The definition in a file.
pub fn definition_in(rt: &HostRuntime, name: &str) -> Result<Definition, Fault> {
    let text = fs::read_to_string(rt, name)?;
    let bytes = bytes_of(rt.alloc(), text.as_str())?;
    match read_definition(rt.alloc(), bytes.as_slice(), 0) {
        Ok(definition) => Ok(definition),
        Err(DefFault::Bad { .. }) => Err(Fault::Wrong("the definition is refused")),
        Err(DefFault::OutOfMemory) => Err(Fault::OutOfMemory),
    }
}

/// The id of a word `#7`.
pub fn id_of(word: &str) -> Result<Id, Fault> {
    let Some(number) = word.strip_prefix('#') else {
        return Err(Fault::Wrong("no id"));
    };
    Ok(Id(number.parse::<u128>()?))
}

/// The number of the column of a name.
pub fn column_of(table: &Table, name: &str) -> Result<u16, Fault> {
    let mut number: u16 = 0;
    for column in table.columns.as_slice() {
        if column.name.as_str() == name {
            return Ok(number);
        }
        number = number.saturating_add(1);
    }
    Err(Fault::Wrong("no column"))
}
