//! The service: lines of JSON in, a line of JSON out for each.
//!
//! The layer above may rest on the clauses of [`top`]: by the status that it answers they say which lines of the input
//! were answered and what was written, over the whole input and however reads cut it. The answer to a line is that of
//! the machine of `specs/Serving` and `specs/Machine` at the moment that the clock gave, or that the clock failed or
//! memory ran out, which changes nothing. After each request on rows the links of the rows are sound: each lookup names a
//! row that is there, and no row is above itself.
#![tactic(auto)]

mod answer;
mod line_buffer;
mod managing;
mod opening;
mod org;
mod run;
mod service;
mod serving;
mod session;
mod status;

pub use answer::Answer;
pub use service::top;
pub use status::Status;
