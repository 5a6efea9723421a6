//! The plain values of the record service: ids, texts, values with their order and their spelling, raw values as
//! JSON has them and the kinds that type them, and tokens.
//!
//! Callers may rely on this: an id is read in any form of a UUID and has one printed form; a text is a
//! list of characters, ordered by its UTF-8 bytes; values have a total order up to case folding, and one spelling
//! each, of which none begins another; a moment has one text; a value within its kind's limits is typed again from
//! its own raw value; bytes are JSON exactly where `serde_json` reads them.
#![tactic(auto)]

mod amount;
mod capacity;
mod id;
mod json;
mod kind;
mod moment;
mod order;
mod printed;
mod raw;
mod spelling;
mod text;
mod token;
mod typing;
mod value;

pub use amount::{print_amount, read_amount};
pub use capacity::items_with_capacity;
pub use id::Id;
pub use json::{JsonFault, add_member, read_json, take_member};
pub use kind::Kind;
pub use moment::{a_moment_has_one_text, print_moment, read_moment};
pub use order::{compare, the_order_of_values_is_total};
pub use printed::version_json;
pub use raw::{Raw, Values};
pub use spelling::{TakeFault, no_spelling_begins_another, put_value, take_value};
pub use text::{Names, Text};
pub use token::{Token, a_token_has_one_spelling, read_version};
pub use typing::{TypeFault, raw_of, type_raw};
pub use value::Value;
