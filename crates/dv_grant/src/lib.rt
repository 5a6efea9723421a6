//! The messages that tell of one row, and those that give rights on it: a row is retrieved, a user's rights on it are
//! told, its shares are listed, rights on it are granted, modified and revoked.
//!
//! Callers may rely on this: each call answers as its definition in specs/ says, which names the checks of the message in
//! the order in which they are made. The first that fails is the refusal, and a refused message leaves the store as it
//! was. A grant goes to the row itself and, as an inherited one, to the rows that its cascade reaches.
//! Granting, modifying and revoking change grants alone: every row stays as it was.
#![tactic(auto)]

mod accessing;
mod closures;
mod giving;
mod granting;
mod listing;
mod retrieving;
mod revoking;

pub use accessing::access;
pub use granting::{grant, modify};
pub use listing::shares;
pub use retrieving::retrieve;
pub use revoking::revoke;
