//! How large a definition may be.

/// The most bytes of a definition's text.
pub(crate) const MAX_BYTES: usize = 1_048_576;

/// The most tables.
pub(crate) const MAX_TABLES: usize = 100;

/// The most columns that a definition gives a table.
pub(crate) const MAX_COLUMNS: usize = 60;

/// The most relationships.
pub(crate) const MAX_RELATIONSHIPS: usize = 300;

/// The most registrations of steps.
pub(crate) const MAX_STEPS: usize = 500;

/// The most business units beside the root.
pub(crate) const MAX_UNITS: usize = 999;

/// The most security roles.
pub(crate) const MAX_ROLES: usize = 500;

/// The most users beside the first.
pub(crate) const MAX_USERS: usize = 9_999;

/// The most teams.
pub(crate) const MAX_TEAMS: usize = 5_000;

/// The most members of a team.
pub(crate) const MAX_MEMBERS: usize = 100_000;

/// The most characters that a text column may allow.
pub(crate) const LONGEST_TEXT: i64 = 2_000;

/// The most digits that an amount has after the point.
pub(crate) const LARGEST_SCALE: i64 = 4;

/// The last of the depths of a privilege, the organisation.
pub(crate) const DEEPEST: i64 = 3;

/// The last rank of a registration.
pub(crate) const LAST_RANK: i64 = 1_000_000;

/// The largest number of a step.
pub(crate) const LAST_STEP: i64 = 9_223_372_036_854_775_807;

/// The least integer of 32 bits.
pub(crate) const LEAST_SHORT: i64 = -2_147_483_648;

/// The greatest integer of 32 bits.
pub(crate) const GREATEST_SHORT: i64 = 2_147_483_647;
