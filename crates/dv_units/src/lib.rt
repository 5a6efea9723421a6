//! The organisation chart: business units under one another, users and teams in them, members of teams.
//!
//! The layers above may rest on this: the units form one tree; ids are distinct and not nil; each user and team belongs
//! to a unit that is there, and each member is a user; a change is made whole, or refused by the first rule that it
//! breaks and nothing is changed. The walks over the chart take no memory. [`lists`] has the steps on lists by ids and on sets
//! of pairs, for the crates above too.
#![tactic(auto)]

mod cursors;
mod fault;
mod lines;
pub mod lists;
mod membership;
mod seats;
mod teams;
mod tree;
mod units;
mod users;

pub use fault::DirFault;
pub use units::Units;
