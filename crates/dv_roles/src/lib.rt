//! The directory: the organisation chart, security roles, who has them, and what a user holds by them.
//!
//! The layers above may rely on this: a change is made whole, or refused by the first rule that it breaks and nothing
//! is changed; the privileges of a role are kept spread out over actions and tables.
#![tactic(auto)]

mod actions;
mod beginning;
mod copies;
mod cursors;
mod directory;
mod entries;
mod gifts;
mod giving;
mod held;
pub mod laws;
mod principal;
mod reach;
mod role;
mod roles;
mod spreading;
mod users;

pub use directory::Directory;
pub use reach::Reach;
pub use role::{RoleEntry, SecurityRole};
