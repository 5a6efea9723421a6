//! The first fault of a value: its kind and its place.

use dv_value::Text;

/// What kind of fault a place has.
#[derive(Clone, Copy, Debug, PartialEq, Eq)]
pub enum FaultKind {
    /// A member that its object's schema doesn't list.
    Unlisted,
    /// A member that is missing or excluded, or a value of another kind, spelling or range than its form.
    Wrong,
    /// A list longer than it may be.
    TooLong,
}

/// The first fault of a JSON value.
#[derive(Debug, Drop)]
pub struct Fault {
    pub kind: FaultKind,
    /// The path to it: the names of members joined by `.`, items as `[i]` from 0, empty for the whole value.
    pub place: Text,
}
