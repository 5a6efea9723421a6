//! The table definition of an organisation: tables, relationships, registrations of steps and the opening directory.
//!
//! Callers may rely on this: a definition is accepted whole or refused with its first fault; in an accepted one every
//! name is resolved to a number, every lookup has its relationship, a table is the child of at most one parental
//! relationship, which joins tables whose rows have owners, every rollup can be calculated, and the opening directory
//! can be made. The clauses of [`read_definition`] say it of the text (`resolved`) and of the numbers of the definition
//! (`sound`).
#![tactic(auto)]

mod building;
mod index;
mod passes;
mod reader;
mod resolving;
mod spelling;
mod system;

pub use dv_schema::{
    Action, Cascade, Column, ColumnRole, DefFault, DefKind, Definition, Entry, Message, Opening,
    OpeningTeam, OpeningUnit, OpeningUser, Registration, Relationship, Role, Rollup, RollupKind,
    Table,
};
pub use reader::read_definition;
