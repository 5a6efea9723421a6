//! What keeps the organisation: a map of cells, each a sheet, a key and a value in bytes, and what
//! a crash may leave.
//!
//! The layers above rest on the clauses of [`Keeper`] alone. A keeper makes all changes of a call
//! or none, answers the cells of a sheet in the order of their keys, and counts each fault as it
//! answers [`KeeperFault::Failed`]; a call that succeeds, or runs out of memory, leaves the count.
//! What a keeper holds is told by those that can tell it; the clauses on cells speak of these. A
//! crash leaves the cells of before a call or those after all its changes, and once the call has
//! succeeded only the latter. [`MemKeeper`] keeps its cells in memory and can be made to fail.
#![tactic(auto)]

mod address;
mod cell;
mod failing;
mod keeper;
mod mem_keeper;
mod places;
mod writing;

pub use cell::{Bytes, Cell, Change, KeeperFault};
pub use keeper::Keeper;
pub use mem_keeper::MemKeeper;
