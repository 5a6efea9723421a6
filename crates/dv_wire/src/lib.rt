//! The text of requests: JSON, a line each, or the body of an HTTP message.
//!
//! Callers may rely on this: a line is read as the caller and the request that it spells, and a body as the request
//! of a message that is known from elsewhere, or the first fault is told with its place, by tables of the messages and
//! one walk over them. Replies are printed by `dv_print`.
#![tactic(auto)]

mod administering;
mod asking;
mod grammar;
mod member;
mod querying;
mod reading;
mod verb;
mod wire;

pub use wire::{WireFault, knows, read_body, read_request};
