//! What the messages on rows have in common: who asks and of which organisation, the row that a message names, the
//! checks that several messages make, the values that a request gives and the rows that its lookups name, how a row is
//! shown, and why a request stops.
//!
//! The messages may rest on this: the checks of a message stand in one list, and a walk over it answers the first that
//! fails (specs/Checked.antt). Each check here answers as its definition in specs/ says, or that memory ran out, and
//! changes nothing.
#![tactic(auto)]

mod columns;
mod lookups;
mod refusing;
mod rights;
mod rows;
mod scene;
mod showing;
mod size;
mod stop;
mod versions;

pub use columns::{
    Writing, check_values, column_of, earlier, given_by, is_empty, own_columns, own_values,
};
pub use lookups::{Naming, check_all_named, check_append_to, namings};
pub use refusing::{answer, denied, refused_if};
pub use rights::{check_right, is_owner, is_principal};
pub use rows::{Target, aim, check_row, check_shareable, of_key};
pub use scene::{Scene, table_at, unknown_table};
pub use showing::{asked_numbers, show_row};
pub use size::check_size;
pub use stop::Stop;
pub use versions::{LAST_VERSION, next_version, stop_of};
