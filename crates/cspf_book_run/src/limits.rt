//! The limits of a run of a book.

/// The version from which on a run places no request and releases no placement. The versions up to
/// `MOST_VERSIONS` are left for base batches, so placings never use up the versions that a feed
/// needs.
pub const MOST_PLACING_VERSIONS: u32 = 900_000;
