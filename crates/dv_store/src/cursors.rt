//! Walks over a store, which take no memory.
ghost use Rattle.std.specs.Prelude.{◌≡◌, ◌+◌, ◌-◌, ◌^◌, ℕ, true, min};
ghost use Rattle.dv_store.specs.Kept.{is_watched};
ghost use Rattle.dv_store.specs.Cursors.{told_of, Told, IsChild, IsNext, IsNextChild, IsNextDirty, IsNextOwned, IsNextPrincipal, IsNextRemoval, IsNextRow, IsNextShared};

use crate::keys::{By, DirtyKey, GrantKey, Listing, RowKey};
use crate::reading::OWNER_PLACE;
use crate::shape::Link;
use crate::store::Store;
use dv_value::Id;
use sqlite_items::at;

/// What a judgement of access walks: the rows of a table, those of an owner, and those that are shared with a
/// principal, each in ascending order of their ids.
pub trait Cursors {
    /// The rows and the grants that are walked. No call changes them.
    ghost told: { Self → Told };

    /// The number of calls. Each raises it by one, or leaves it where it is 2^64 - 1.
    ghost count: { Self → ℕ };

    /// The first row of an owner past an id, or the first of all. The owner is the id that the value at
    /// [`OWNER_PLACE`] names; a table whose rows have no owners names none there.
    fn owned_after(&mut self, table: u16, owner: Id, after: Option<Id>) -> Option<Id>
        ensures next { IsNextOwned (Self.told self.old) table owner after result }
        ensures told { Self.told self.new ≡ Self.told self.old }
        ensures count { Self.count self.new ≡ min (Self.count self.old + 1) (2 ^ 64 - 1) };

    /// The first row past an id, or the first of all, on which a principal has a grant, with the direct and inherited
    /// rights of that grant, joined.
    fn shared_after(&mut self, table: u16, principal: Id, after: Option<Id>) -> Option<(Id, u32)>
        ensures next { IsNextShared (Self.told self.old) table principal after result }
        ensures told { Self.told self.new ≡ Self.told self.old }
        ensures count { Self.count self.new ≡ min (Self.count self.old + 1) (2 ^ 64 - 1) };

    /// The first row of a table past an id, or the first of all.
    fn row_after(&mut self, table: u16, after: Option<Id>) -> Option<Id>
        ensures next { IsNextRow (Self.told self.old) table after result }
        ensures told { Self.told self.new ≡ Self.told self.old }
        ensures count { Self.count self.new ≡ min (Self.count self.old + 1) (2 ^ 64 - 1) };
}

impl Store {
    /// The first row of a table past an id, or the first of all.
    pub fn row_after(&self, table: u16, after: Option<Id>) -> Option<Id>
        ensures { IsNextRow (told_of self.now.present) table after result }
    {
        self.cells.next_row(table, after)
    }

    /// The first row of an owner past an id, or the first of all.
    pub fn owned_after(&self, table: u16, owner: Id, after: Option<Id>) -> Option<Id>
        ensures { IsNextOwned (told_of self.now.present) table owner after result }
    {
        let list = Listing {
            table,
            by: By::Place(OWNER_PLACE as u16),
            of: owner,
        };
        self.cells.next_entry(list, after)
    }

    /// The first row of a table past an id, or the first of all, on which a principal has a grant, with its rights,
    /// direct and inherited joined.
    pub fn shared_after(&self, table: u16, principal: Id, after: Option<Id>) -> Option<(Id, u32)>
        ensures { IsNextShared (told_of self.now.present) table principal after result }
    {
        let list = Listing {
            table,
            by: By::Grant,
            of: principal,
        };
        let id = self.cells.next_entry(list, after)?;
        let row = RowKey { table, id };
        let (direct, inherited) = self.cells.grant(GrantKey { row, principal })?;
        Some((id, direct | inherited))
    }

    /// The first row past an id that names a parent by a link.
    fn child_after(&self, link: Link, parent: Id, after: Option<Id>) -> Option<Id>
        requires { is_watched self.now.present.shape link.child link.place ≡ true }
        ensures { IsNext (IsChild self.now.present (Some link) parent) after result }
    {
        let list = Listing {
            table: link.child,
            by: By::Place(link.place),
            of: parent,
        };
        self.cells.next_entry(list, after)
    }

    /// The first child of a parent by a relationship past an id, or the first of all. A relationship that isn't there
    /// has no children.
    #[tactic(auto, using(crate::proofs::Watched::watched_link))]
    pub fn children_after(&self, relationship: u16, parent: Id, after: Option<Id>) -> Option<Id>
        ensures { IsNextChild self.now.present relationship parent after result }
    {
        let links = self.cells.shape().links.as_slice();
        match at(links, usize::from(relationship)) {
            Some(link) => self.child_after(*link, parent, after),
            None => None,
        }
    }

    /// The first principal past another, or the first of all, that has a grant on a row.
    pub fn principal_after(&self, table: u16, id: Id, after: Option<Id>) -> Option<Id>
        ensures { IsNextPrincipal self.now.present table id after result }
    {
        self.cells.next_grant(RowKey { table, id }, after)
    }

    /// The first removal of a table past an id, or the first of all, with its version.
    pub fn removal_after(&self, table: u16, after: Option<Id>) -> Option<(Id, u64)>
        ensures { IsNextRemoval self.now.present table after result }
    {
        let id = self.cells.next_removal(table, after)?;
        let version = self.cells.removal(RowKey { table, id })?;
        Some((id, version))
    }

    /// The first dirty rollup past another, or the first of all, by table, id and column.
    pub fn dirty_after(&self, after: Option<DirtyKey>) -> Option<DirtyKey>
        ensures { IsNextDirty self.now.present.dirty after result }
    {
        self.cells.next_dirty(after)
    }
}
