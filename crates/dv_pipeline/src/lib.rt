//! One request on rows: what it checks, what it does to the world, and what it answers.
//!
//! The service may rest on this: [`execute`] answers as `Runs` of specs/Run.antt says, and a request that isn't served
//! leaves the store as it was. The checks of a message stand in one list, in the order in which they are asked. A
//! query depends on what its caller can see alone. Links that are sound stay so, whatever comes of a request: each
//! lookup names a row that is there, and no row is above itself. Going back to a mark from before a request brings the
//! same state back as if it hadn't been served.
#![tactic(auto)]

mod caller;
mod creating;
mod creation;
mod executing;
mod query;
mod querying;
mod reading;
mod requests;
mod writing;

pub use dv_message::Stop;
pub use executing::execute;
pub use requests::{caller_fault, is_built};
