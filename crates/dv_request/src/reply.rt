//! Replies: one variant for each form of answer, and the refusals.

use dv_refusal::Refusal;
use dv_value::{Id, Raw, Text, Token, Values};
use sqlite_items::Items;

/// What a caller is told.
#[derive(Drop)]
pub enum Reply {
    /// The request was served, and there is nothing to say.
    Done,
    /// The id of the row that was made.
    Created {
        id: Id,
    },
    /// A row: its id at `id`, and the columns that were asked for.
    Found {
        row: Values,
    },
    /// The access rights, added up.
    Rights {
        rights: u32,
    },
    /// Who was given rights on a row.
    Shares {
        shares: Items<Share>,
    },
    /// A page of a query's answer.
    Page {
        rows: Items<Values>,
        /// Whether rows follow.
        more: bool,
        /// By which the next page is asked for; given where rows follow.
        cookie: Option<Text>,
        /// How many rows the answer has, at most 5,000; given where it was asked for.
        total: Option<u32>,
        /// Whether the answer has more rows than `total` can say; given with it.
        over: Option<bool>,
    },
    /// What changed.
    Changes {
        changes: Items<Change>,
        /// Whether more changes follow.
        more: bool,
        /// By which the changes after these are asked for.
        token: Token,
    },
    /// A calculated rollup.
    Rolled {
        state: i32,
        value: Raw,
    },
    /// How many rollups a job calculated.
    Calculated {
        calculated: u64,
    },
    /// The caller, its business unit and its teams.
    Caller {
        user: Id,
        unit: Id,
        teams: Items<Id>,
    },
    /// The replies to the requests of a batch, in their order.
    Replies {
        replies: Items<Reply>,
    },
    /// The request was not served. In a transaction `item` is the place of the request that wasn't, counted from 0.
    Refused {
        refusal: Refusal,
        item: Option<u32>,
    },
}

/// Rights on a row that a user or a team was given.
#[derive(Drop)]
pub struct Share {
    pub principal: Id,
    /// Given for this row.
    pub direct: u32,
    /// Given for a row above it.
    pub inherited: u32,
}

/// A change that is told.
#[derive(Drop)]
pub enum Change {
    /// A row that was made or changed, as it is now: its id at `id`, and all its columns.
    Row { row: Values },
    /// A row that was removed, at this version.
    Removed { id: Id, version: u64 },
}
