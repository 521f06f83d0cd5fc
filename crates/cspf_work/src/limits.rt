//! The limit on the requests of one call.

/// The most requests that one call answers.
pub const MOST_REQUESTS: usize = 1_000_000;
