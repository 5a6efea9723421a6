//! Access: what a user may do with a row, and which rows it may read.
//!
//! Whoever wants to know what this crate promises reads specs/Reaches.antt, specs/Permitted.antt and specs/View.antt:
//! the relations that they define are what each function here answers, both ways. They speak of owners, business
//! units, teams and shares, and of no order in which anything is searched.
#![tactic(auto)]

mod chart;
mod checking;
mod denied;
mod gathering;
mod masks;
mod principals;
mod reaching;
mod readable;
mod sharing;
mod summing;

pub use checking::{check, check_new};
pub use denied::{Denied, Why};
pub use masks::right_of;
pub use readable::permitted;
pub use summing::rights;
