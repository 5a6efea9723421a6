//! What a JSON object must look like, as a schema, and the first place at which it doesn't.
//!
//! Callers may rely on this: a grammar is a schema for each kind of object, of names, whether each is
//! needed, and the form of its value; the first fault of a JSON value under a grammar is that of one stated walk,
//! with its kind and its place; and the readers of members give exactly what a member says.
#![tactic(auto)]

mod fault;
mod form;
mod local_fault;
mod members;
mod parts;
mod read;
mod schema;
mod spelling;
mod walk;
mod word;

pub use fault::{Fault, FaultKind};
pub use form::{Case, Exclusion, Form, Grammar, Member, Schema};
pub use members::{id_in, integer_in};
pub use read::{FromJson, byte_of, items_of, members_of, take_at, take_given};
pub use spelling::{Spelling, is_name};
pub use walk::first_fault;
pub use word::{says_at, text_at};
