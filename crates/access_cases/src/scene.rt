//! An organisation to be asked: its definition, its directory, and its rows with their grants.
use crate::wish::Wish;
use case_notation::Fault;
use dv_access::{Denied, check, check_new, permitted, rights};
use dv_roles::Directory;
use dv_schema::Definition;
use dv_store::{Row, Store, StoreFault, Walk};
use dv_units::DirFault;
use dv_value::{Id, Value};
use sqlite_items::Items;
use std::alloc::{AllocError, Global};

/// An organisation.
#[derive(Drop)]
pub struct Scene<'a> {
    pub definition: &'a Definition,
    pub directory: Directory,
    store: Store,
    alloc: Global,
}

/// What came of a change of the directory.
pub fn allowed(outcome: Result<(), DirFault>) -> Result<(), Fault> {
    match outcome {
        Ok(()) => Ok(()),
        Err(DirFault::OutOfMemory) => Err(Fault::OutOfMemory),
        Err(DirFault::Refused(_)) => Err(Fault::Wrong("refused by the directory")),
    }
}

// What came of a change of the store.
fn stored(outcome: Result<(), StoreFault>) -> Result<(), Fault> {
    match outcome {
        Ok(()) => Ok(()),
        Err(StoreFault::OutOfMemory) => Err(Fault::OutOfMemory),
        Err(StoreFault::Limit(_)) => Err(Fault::Wrong("refused by the store")),
    }
}

// A row of an owner, or of none. Another user made it.
fn row_of(alloc: Global, maker: Id, owner: Option<Id>) -> Result<Row, AllocError> {
    let mut values = Items::new(alloc);
    values.push(Value::Ref(maker))?;
    values.push(Value::Moment(0))?;
    values.push(Value::Ref(maker))?;
    values.push(Value::Moment(0))?;
    if let Some(owner) = owner {
        values.push(Value::Ref(owner))?;
    }
    Ok(Row { values })
}

impl<'a> Scene<'a> {
    /// The organisation that a definition begins with.
    pub fn begin(alloc: Global, definition: &'a Definition) -> Result<Scene<'a>, Fault> {
        let directory = match Directory::begin(alloc, definition) {
            Ok(directory) => directory,
            Err(DirFault::OutOfMemory) => return Err(Fault::OutOfMemory),
            Err(DirFault::Refused(_)) => return Err(Fault::Wrong("a directory that is refused")),
        };
        Ok(Scene {
            definition,
            directory,
            store: Store::new(alloc, definition)?,
            alloc,
        })
    }

    /// Puts a row of an owner, or of none.
    pub fn put(&mut self, table: u16, id: Id, owner: Option<Id>) -> Result<(), Fault> {
        let row = row_of(self.alloc, Id(101), owner)?;
        stored(self.store.put_row(table, id, row))
    }

    /// Sets the direct and the inherited rights of a principal on a row.
    pub fn share(
        &mut self,
        table: u16,
        id: Id,
        principal: Id,
        rights: (u32, u32),
    ) -> Result<(), Fault> {
        if !self.store.is_owned(table) || self.store.row(table, id).is_none() {
            return Err(Fault::Wrong("a share on no row of a user"));
        }
        let (direct, inherited) = rights;
        stored(
            self.store
                .set_grant(table, id, principal, direct, inherited),
        )
    }

    /// Removes a row with its grants.
    pub fn remove(&mut self, table: u16, id: Id) -> Result<(), Fault> {
        if self.store.row(table, id).is_none() {
            return Err(Fault::Wrong("no row to remove"));
        }
        Ok(self.store.remove_row(table, id)?)
    }

    /// What a user is told that wants to do an action on a row.
    pub fn check(&self, wish: Wish, id: Id) -> Result<Result<(), Denied>, Fault> {
        let Wish {
            user,
            action,
            table,
        } = wish;
        let store = &self.store;
        if store.row(table, id).is_none() {
            return Err(Fault::Wrong("no row to check"));
        }
        Ok(check(&self.directory, store, user, action, table, id))
    }

    /// What a user is told that wants to do an action on a new row of an owner, or of none.
    pub fn check_new(&self, wish: Wish, owner: Option<Id>) -> Result<(), Denied> {
        check_new(&self.directory, wish.user, wish.action, wish.table, owner)
    }

    /// The rights that a user has on a row.
    pub fn rights(&self, user: Id, table: u16, id: Id) -> Result<u32, Fault> {
        let store = &self.store;
        if store.row(table, id).is_none() {
            return Err(Fault::Wrong("no row to have rights on"));
        }
        Ok(rights(&self.directory, store, user, table, id))
    }

    /// The rows of a table that a user may read.
    pub fn permitted(&self, user: Id, table: u16) -> Result<Vec<Id>, AllocError> {
        let mut walk = Walk::new(&self.store);
        permitted(self.alloc, &self.directory, &mut walk, user, table)
    }
}
