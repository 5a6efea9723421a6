//! Why a query can't be asked.

ghost use Rattle.std.specs.Prelude.{◌≡◌, chars};
ghost use Rattle.dv_query_check.specs.Faults.{kind_word, refusal_of};

use crate::path::Path;
use dv_value::Text;
use std::alloc::AllocError;
use thiserror::Error;

/// What kind of fault a query has.
#[derive(Clone, Copy, Debug, PartialEq, Eq)]
pub enum QueryKind {
    /// A number out of its range, a total that can't be had, or a value that isn't of its column's kind.
    Value,
    /// More links, conditions or orders than a query may have.
    Limit,
    /// A column that its table doesn't have, or a join by one that doesn't hold ids.
    Column,
    /// A table that the definition doesn't have.
    Table,
    /// An alias that isn't a name, is missing, is used twice, or can't be named here.
    Alias,
    /// Columns of a link that only asks whether there is a partner.
    Columns,
    /// An operator that doesn't suit its column.
    Operator,
    /// Another number of values than the operator takes.
    Count,
}

impl QueryKind {
    /// The kinds.
    pub const ALL: [QueryKind; 8] = [
        QueryKind::Value,
        QueryKind::Limit,
        QueryKind::Column,
        QueryKind::Table,
        QueryKind::Alias,
        QueryKind::Columns,
        QueryKind::Operator,
        QueryKind::Count,
    ];

    /// The word for it.
    #[tactic(auto, unfolding(crate::specs::Faults::kind_word))]
    pub fn word(self) -> &'static str
        ensures { result.now ≡ kind_word self }
    {
        match self {
            QueryKind::Value => "value",
            QueryKind::Limit => "limit",
            QueryKind::Column => "column",
            QueryKind::Table => "table",
            QueryKind::Alias => "alias",
            QueryKind::Columns => "columns",
            QueryKind::Operator => "operator",
            QueryKind::Count => "count",
        }
    }
}

/// Why a query isn't accepted.
#[derive(Debug, Drop, Error)]
pub enum QueryFault {
    /// The first fault: the place of it in the query, by the member names of the request, and its kind.
    #[error("the query can't be asked")]
    BadQuery { part: Text, kind: QueryKind },
    /// There was no memory for the check.
    #[error("out of memory")]
    OutOfMemory,
}

impl From<AllocError> for QueryFault {
    ghost use Rattle.std.specs.Prelude.{◌≡◌};
    ghost use Rattle.dv_query_check.specs.declared.fault.QueryFault.TheVariants.{OutOfMemory};

    ghost from_gives = { λ _ fault. fault ≡ OutOfMemory };

    fn from(_error: AllocError) -> QueryFault {
        QueryFault::OutOfMemory
    }
}

/// A fault: its place and its kind.
#[derive(Drop)]
pub(crate) struct Fault {
    pub(crate) place: Path,
    pub(crate) kind: QueryKind,
}

impl Fault {
    /// The fault as callers are told it.
    pub(crate) fn into_told(self) -> QueryFault
        ensures { result ≡ refusal_of self }
    {
        let Fault { place, kind } = self;
        QueryFault::BadQuery {
            part: place.into_text(),
            kind,
        }
    }
}
