//! Whom roles may be given to.

/// Whom an id names.
#[derive(Clone, Copy, Debug)]
pub(crate) enum Principal {
    User,
    OwnerTeam,
    AccessTeam,
}
