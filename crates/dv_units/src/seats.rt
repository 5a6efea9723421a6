//! What is kept of a user and of a team.
use dv_value::Id;

/// A user: the unit that it belongs to, and whether it may send requests.
#[derive(Clone, Copy, Debug)]
pub(crate) struct User {
    pub unit: Id,
    pub enabled: bool,
}

/// A further team: the unit that it belongs to, and whether it is an access team or an owner team.
#[derive(Clone, Copy, Debug)]
pub(crate) struct Team {
    pub unit: Id,
    pub access: bool,
}
