//! What a table definition says, as plain data, and how its text is read: the accepted definition with its tables,
//! relationships, registrations of steps and opening directory; the draft that a text stands for, with names where
//! the definition has numbers; the form that a text must have.
//!
//! Callers may rely on this: a text is read to the draft that it stands for, within the limits of a definition, or
//! the first fault of its form is told with its place. Whether the names of a draft agree is judged above.
#![tactic(auto)]

mod column_type;
mod definition;
mod draft;
mod fault;
mod form;
mod grammar;
mod limits;
mod opening;
mod place;
mod reading;
mod registration;
mod relationship;
mod table;

pub use definition::Definition;
pub use draft::{
    Draft, DraftColumn, DraftForm, DraftRegistration, DraftRelationship, DraftRollup, DraftTable,
};
pub use fault::{DefFault, DefKind};
pub use form::read_form;
pub use opening::{Action, Entry, Opening, OpeningTeam, OpeningUnit, OpeningUser, Role};
pub use place::Place;
pub use registration::{Message, Registration};
pub use relationship::{Cascade, Relationship};
pub use table::{Column, ColumnRole, Rollup, RollupKind, Table};
