//! The store: rows, grants, the removals that tracked tables leave, the rollups that have to be calculated again, and
//! the counters of versions and ids, all of which can go back to an earlier state.
//!
//! Callers may rely on this: a [`Store`] is seen as its present world and the worlds before it. Each call says what it
//! makes of the present world, and a refused call leaves everything as it was. The cursors give each row, grant,
//! removal or dirty rollup once, in ascending order, and take no memory. [`Store::undo_to`] brings back exactly the
//! world of a mark, takes no memory and can't fail.
//!
//! ```
//! let start = store.mark();
//! if store.put_row(0, id, row).is_err() || store.set_grant(0, id, user, READ, 0).is_err() {
//!     store.undo_to(start);    // neither of the two was made
//! }
//! ```
//!
//! [`Cursors`] is what a judgement of access walks; [`Walk`] gives it for a store, and counts the calls.
#![tactic(auto)]

mod cells;
mod changes;
mod cursors;
mod fault;
mod granting;
mod item;
mod keyed;
mod keys;
mod listing;
mod marking;
mod numbers;
mod putting;
mod raising;
mod reading;
mod removing;
mod rolling;
mod row;
mod seeking;
mod shape;
mod store;
mod walking;

pub use cursors::Cursors;
pub use fault::StoreFault;
pub use keys::{DirtyKey, GrantKey, Place, RowKey};
pub use numbers::Numbers;
pub use reading::{OWNER_PLACE, named_at};
pub use row::Row;
pub use shape::{Feed, Link, Shape};
pub use store::Store;
pub use walking::Walk;
