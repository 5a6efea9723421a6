//! The text of replies: one line of JSON each.
//!
//! Callers may rely on this: a reply is printed as exactly the compact JSON that it stands for, which reads back to
//! the same value where it nests no deeper than JSON is read.
#![tactic(auto)]

mod object;
mod printing;

pub use printing::print_reply;
