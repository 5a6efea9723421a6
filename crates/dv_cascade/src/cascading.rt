//! What is done to a row and reaches rows under it.
ghost use Rattle.std.specs.Prelude.{◌≡◌};
ghost use Rattle.dv_cascade.specs.Links.{cascade_by};

use dv_schema::{Cascade, Relationship};

/// What is done to a row and reaches the rows under it as its relationships say.
#[derive(Clone, Copy, Debug, PartialEq, Eq)]
pub enum Cascading {
    /// The row gets another owner.
    Assign,
    /// Rights on the row are granted.
    Share,
    /// Rights on the row are taken back.
    Unshare,
    /// The row gets another parent.
    Reparent,
    /// The row is removed.
    Delete,
}

impl Cascading {
    /// Which children of a relationship it reaches.
    pub fn by(self, relationship: &Relationship) -> Cascade
        ensures { result ≡ cascade_by self relationship.now }
    {
        match self {
            Cascading::Assign => relationship.assign,
            Cascading::Share => relationship.share,
            Cascading::Unshare => relationship.unshare,
            Cascading::Reparent => relationship.reparent,
            Cascading::Delete => relationship.delete,
        }
    }
}
