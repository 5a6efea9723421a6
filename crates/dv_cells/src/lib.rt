//! The cells that keep the organisation: for each sheet, what its keys and values are in bytes.
//!
//! An [`Item`] is what a cell stands for. [`encode`] makes its cell, and [`decode_cell`] finds the
//! item of a cell, or says that the cell is no item's. The layer above may rely on this: each item
//! has one cell, no two items have the same one, and the cells of a sheet in the byte order of
//! their keys are in the order of what the keys stand for.
//!
//! ```
//! let (sheet, cell) = encode(alloc, &Item::Unit { id, parent })?;
//! let item = decode_cell(alloc, sheet, &cell)?;    // the same unit
//! ```
//!
//! Neither knows the table definition: a row's cell may have any number of values of any kinds, and
//! an id may name nothing. Whether the cells of a keeper are a valid organisation isn't asked here.
#![tactic(auto)]

mod bytes;
mod decoding;
mod encoding;
mod item;
mod keys;
mod laws;
mod roles;
mod rows;
mod sheets;
mod values;

pub use decoding::decode_cell;
pub use encoding::encode;
pub use item::Item;
pub use laws::{an_item_has_a_cell_of_its_own, keys_are_in_order};
