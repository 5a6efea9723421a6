//! Requests: one variant for each message.

use dv_query::Query;
use dv_schema::{Entry, Role};
use dv_value::{Id, Names, Text, Token, Values};
use sqlite_items::{Boxed, Items};

/// A message to the organisation, without its caller.
#[derive(Debug, Drop)]
pub enum Request {
    /// Makes a row. Without an id the service gives it one.
    Create {
        table: Text,
        id: Option<Id>,
        values: Values,
    },
    /// Gives a row. Without columns it gives them all.
    Retrieve {
        table: Text,
        id: Id,
        columns: Option<Names>,
    },
    /// Changes columns of a row. With a version the row must still be at it.
    Update {
        table: Text,
        id: Id,
        values: Values,
        version: Option<u64>,
    },
    /// Removes a row and those that go with it. With a version the row must still be at it.
    Delete {
        table: Text,
        id: Id,
        version: Option<u64>,
    },
    /// Gives a row, and those that go with it, another owner.
    Assign {
        table: Text,
        id: Id,
        owner: Id,
    },
    /// Adds rights on a row for a user or a team.
    Grant {
        table: Text,
        id: Id,
        principal: Id,
        rights: i64,
    },
    /// Sets the rights that a user or a team was given on a row.
    Modify {
        table: Text,
        id: Id,
        principal: Id,
        rights: i64,
    },
    /// Takes away the rights that a user or a team was given on a row.
    Revoke {
        table: Text,
        id: Id,
        principal: Id,
    },
    /// Gives a user's rights on a row. Without a user, the caller's.
    Access {
        table: Text,
        id: Id,
        user: Option<Id>,
    },
    /// Lists who has been given rights on a row.
    Shares {
        table: Text,
        id: Id,
    },
    /// Gives rows that meet a query. The query is boxed, so that a list of other requests stays small.
    Query {
        query: Boxed<Query>,
    },
    /// Gives what changed in a table since a token.
    Changes {
        table: Text,
        token: Option<Token>,
        count: i64,
    },
    /// Calculates a rollup of a row now.
    Rollup {
        table: Text,
        id: Id,
        column: Text,
    },
    /// Gives the caller's unit and teams.
    WhoAmI,
    /// Calculates every rollup that isn't up to date.
    RollupJob,
    /// Forgets which rows were removed up to a version.
    Trim {
        token: u64,
    },
    /// Several requests, each with a reply of its own. Unless it goes on, the first refusal is the last reply.
    Multiple {
        requests: Items<Request>,
        continue_: bool,
    },
    /// Several requests, of which all are done or none.
    Transaction {
        requests: Items<Request>,
    },
    /// Makes a business unit under another.
    AddUnit {
        id: Id,
        parent: Id,
    },
    /// Puts a business unit under another.
    MoveUnit {
        unit: Id,
        parent: Id,
    },
    /// Makes a user.
    AddUser {
        id: Id,
        unit: Id,
    },
    /// Puts a user into another unit, which takes the user's roles away.
    MoveUser {
        user: Id,
        unit: Id,
    },
    /// Lets a user send requests, or no longer.
    SetEnabled {
        user: Id,
        enabled: bool,
    },
    /// Makes a team: an access team, or an owner team.
    AddTeam {
        id: Id,
        unit: Id,
        access: bool,
    },
    /// Puts a user into a team.
    AddMember {
        team: Id,
        user: Id,
    },
    /// Takes a user out of a team.
    RemoveMember {
        team: Id,
        user: Id,
    },
    /// Makes a security role.
    AddRole {
        role: Role,
    },
    /// Sets what a security role allows.
    SetPrivileges {
        role: Id,
        manage: bool,
        privileges: Items<Entry>,
    },
    /// Gives a security role to a user or an owner team.
    GiveRole {
        role: Id,
        to: Id,
    },
    /// Takes a security role from a user or an owner team.
    TakeRole {
        role: Id,
        to: Id,
    },
}
