//! The messages that change rows: an update, an assignment, a deletion; and what the new parent of a row hands on.
//!
//! The request may rest on this: each call answers as its definition in specs/ says, and one that isn't served leaves
//! the store as it was. The checks of a message stand in one list, in the order in which they are asked. An effect is a
//! list of changes of rows, by table and id, each of which takes the next version. Where a row has another parent once its
//! values were set, or none any more, [`settle`] hands that on; a creation calls it too. The links of the store are sound
//! before a call, and after it.
#![tactic(auto)]

mod assigning;
mod change;
mod deleting;
mod editing;
mod effect;
mod kept;
mod linking;
mod losing;
mod moving;
mod reached;
mod updating;

pub use assigning::assign;
pub use change::{Change, Edit, Placed};
pub use deleting::delete;
pub use moving::settle;
pub use updating::update;
