//! What programs of cases share: files of cases, what stands in them for something longer, and running and telling.
//!
//! Nothing is claimed of these functions but that they are safe and come to an end.
#![tactic(auto)]

mod case;
mod fault;
mod notation;
mod printed;
mod repetition;
mod running;

pub use case::{Case, behind_blank, cases_of};
pub use fault::{Fault, found};
pub use notation::{bytes_of, joined};
pub use printed::without_wrappings;
pub use repetition::{push_counted, repeated};
pub use running::{Answers, Tally, run};
