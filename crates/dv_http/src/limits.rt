//! The limits of a message.

/// The most bytes that a head has, the empty lines before it and the one that ends it counted in.
pub const HEAD_LIMIT: usize = 16_384;

/// The most headers that a head has.
pub const MAX_HEADERS: usize = 64;

/// The most digits of a `Content-Length`.
pub const MAX_LENGTH_DIGITS: usize = 7;

/// The most bytes that a body has.
pub const MAX_BODY: usize = 1_048_576;
