//! Requests and replies as plain data: what a caller asks of the organisation, and what it is told.
//!
//! Callers may rely on this: there is one variant for each message and for each form of reply, and its
//! fields are the members that the message or the reply has as JSON, read to the types of the values.
#![tactic(auto)]

mod reply;
mod request;

pub use dv_refusal::Refusal;
pub use reply::{Change, Reply, Share};
pub use request::Request;
