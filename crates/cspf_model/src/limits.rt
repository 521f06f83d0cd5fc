//! The limits of a database, a batch, a route and a journal.
use cspf_addr::MOST_HOPS;

/// The greatest number of links that a database may have.
pub const MOST_LINKS: usize = 16384;

/// The greatest number of routers that a database may have. The routers of a database are those at
/// which its links begin or end.
pub const MOST_ROUTERS: usize = 1024;

/// The greatest number of routers that a database may mark as without transit.
pub const MOST_MARKS: usize = 1024;

/// The greatest number of changes that a batch may have.
pub const MOST_CHANGES: usize = 4096;

/// The greatest version number. Each published batch makes a new version, so there are at most this
/// many published batches.
pub const MOST_VERSIONS: u32 = 1_000_000;

/// The greatest number of legs that a route may have: one to each hop, and one to the tail-end.
pub const MOST_LEGS: usize = MOST_HOPS + 1;

/// The greatest number of links that a `Route` may have: `MOST_ROUTERS - 1` links for each leg.
pub const MOST_ROUTE_LINKS: usize = MOST_LEGS * (MOST_ROUTERS - 1);
