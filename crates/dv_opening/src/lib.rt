//! The directory that an organisation opens with: which unit, role, user or team of it is the first that would be
//! refused, if the messages of the directory made them in the order of the text.
//!
//! Callers may rely on this: the first refused unit, user and team are those of the stated rules. Roles are judged by
//! the caller, who knows which tables have owners.
#![tactic(auto)]

mod directory;
mod ids;
mod limits;
mod seats;
mod teams;

pub use directory::{refused_unit, refused_user};
pub use limits::{MEMBERS, ROLES, TEAMS, UNITS, USERS};
pub use seats::{Made, Seats};
pub use teams::refused_team;
