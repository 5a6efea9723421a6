//! A query, and each check that is made of it.
ghost use Rattle.std.specs.Prelude.{◌≡◌, ◌↔◌, IfOk, IsTrue};
ghost use Rattle.dv_store.specs.World.{World};
ghost use Rattle.dv_access.specs.Reaches.{Holds};
ghost use Rattle.dv_message.specs.Checked.{Answers, Walked};
ghost use Rattle.dv_pipeline.specs.Querying.{querying_in, query_fault, AreReadable, MayRead, QuerySays};

use dv_access::{Denied, Why, permitted};
use dv_message::{Stop, denied};
use dv_query::Query;
use dv_query_check::{QueryFault, check_query};
use dv_refusal::Refusal;
use dv_roles::Directory;
use dv_schema::{Action, Definition, Table};
use dv_store::{Store, Walk};
use dv_value::{Id, Text};
use std::alloc::{AllocError, Global};

/// A query for the columns of all rows of a table that a user may read.
#[derive(Clone, Copy, Drop)]
pub(crate) struct Asked<'a> {
    pub directory: &'a Directory,
    pub number: u16,
    pub table: &'a Table,
    pub user: Id,
    pub definition: &'a Definition,
    pub query: &'a Query,
}

/// What is checked of a query before it is answered.
#[derive(Clone, Copy, Debug, PartialEq, Eq)]
pub(crate) enum QueryCheck {
    /// It can be asked of the tables of the definition.
    WellFormed,
    /// The user holds something of reading on the table.
    Privilege,
}

/// The checks, in the order in which they are made.
pub(crate) const QUERY_CHECKS: [QueryCheck; 2] = [QueryCheck::WellFormed, QueryCheck::Privilege];

/// Whether a user holds something of reading on a table.
fn may_read(directory: &Directory, user: Id, table: u16) -> bool
    ensures { IsTrue result ↔ Holds directory.now user Action.Read table }
{
    directory.holds(user, Action::Read, table).next().is_some()
}

impl Asked<'_> {
    /// The ids of the rows that the user may read, in ascending order.
    pub fn ids(&self, alloc: Global, store: &Store) -> Result<Vec<Id>, AllocError>
        ensures { IfOk result (λ ids. AreReadable (querying_in store.now.present self.now) ids.items) }
    {
        let mut walk = Walk::new(store);
        permitted(alloc, self.directory, &mut walk, self.user, self.number)
    }

    /// Checks that the query can be asked of the tables of the definition.
    fn check_form(&self, alloc: Global) -> Result<(), Stop>
        ensures { Answers (λ said. said ≡ query_fault self.now.definition.now self.now.query.now)
            result }
    {
        match check_query(alloc, self.definition, self.query) {
            Ok(()) => Ok(()),
            Err(QueryFault::BadQuery { part, kind }) => Err(Stop::Refused(Refusal::BadQuery {
                kind: Text::from_str(alloc, kind.word())?,
                part,
            })),
            Err(QueryFault::OutOfMemory) => Err(Stop::OutOfMemory),
        }
    }

    /// Checks that something of reading is held.
    fn check_privilege(&self, alloc: Global) -> Result<(), Stop>
        ensures { (world : World) → Answers (MayRead (querying_in world self.now)) result }
    {
        if may_read(self.directory, self.user, self.number) {
            return Ok(());
        }
        let denial = Denied {
            action: Action::Read,
            table: self.number,
            why: Why::NoPrivilege,
        };
        Err(Stop::Refused(denied(alloc, self.table, denial)?))
    }

    /// Makes one of the checks.
    #[tactic(auto, unfolding(crate::specs::Querying::QuerySays))]
    fn judge(&self, alloc: Global, check: QueryCheck) -> Result<(), Stop>
        ensures { (world : World) → Answers (QuerySays (querying_in world self.now) check) result }
    {
        match check {
            QueryCheck::WellFormed => self.check_form(alloc),
            QueryCheck::Privilege => self.check_privilege(alloc),
        }
    }

    /// Makes checks in their order, up to the first that fails.
    #[tactic(auto, unfolding(dv_message::specs::Checked::AllPass, dv_message::specs::Checked::FirstSays))]
    pub fn judge_all(&self, alloc: Global, checks: &[QueryCheck]) -> Result<(), Stop>
        ensures { (world : World)
            → Walked (QuerySays (querying_in world self.now)) checks.now result }
    {
        for check in checks {
            match self.judge(alloc, *check) {
                Ok(()) => {}
                Err(stop) => return Err(stop),
            }
        }
        Ok(())
    }
}
