//! An ordered map with its earlier states, and undoing that cannot fail.
//!
//! A [`Shelf`] is an ordered map that keeps the states it had. Contracts see it as its present entries, by ascending
//! keys, and the list of the states before them. [`Shelf::put`] and [`Shelf::take`] add the state that was present and
//! change the new one at their key alone. [`Shelf::mark`] names the present state, [`Shelf::undo_to`] brings a marked
//! state back with those before it, and [`Shelf::forget`] keeps the present one alone.
//!
//! Callers may rely on this: looking, marking, undoing and forgetting take no memory and always succeed, and a change
//! that is refused for memory leaves the present state and all earlier ones as they were.
//!
//! ```
//! let start = shelf.mark();
//! if shelf.put(7, 70).is_err() || shelf.take(&8).is_err() {
//!     shelf.undo_to(start);    // neither of the two was made
//! }
//! ```
//!
//! Where several changes are one step, the first is a `put` or a `take` and the others are [`Shelf::amend_put`] and
//! [`Shelf::amend_take`], which keep no state of their own: so a row and its index entries are one state.
//! [`Shelf::touched_since`] tells which keys were changed since a mark, and what each had then.
#![tactic(auto)]

mod journal;
mod key;
mod places;
mod shelf;
mod touched;

pub use key::Key;
pub use shelf::Shelf;
