//! How many units, users, teams, members and roles a directory may have.

/// The most business units, the root among them.
pub const UNITS: usize = 1000;

/// The most users, the admin among them.
pub const USERS: usize = 10_000;

/// The most teams besides the units' default teams.
pub const TEAMS: usize = 5000;

/// The most roles besides the System Administrator.
pub const ROLES: usize = 500;

/// The most members of all teams together.
pub const MEMBERS: usize = 100_000;
