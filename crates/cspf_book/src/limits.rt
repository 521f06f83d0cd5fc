//! The limits of a book.

/// The greatest number of placements in a book.
pub const MOST_PLACEMENTS: usize = 65536;

/// The greatest number of links in the route of one placement. If a placement moves from one route
/// to another, at most twice as many links change. One batch may have this many changes.
pub const MOST_PLACED_LINKS: usize = 2048;

/// The greatest number of links in the routes of all placements. A link counts once for each route
/// that uses it.
pub const MOST_ROUTES_LINKS: usize = 1_048_576;
