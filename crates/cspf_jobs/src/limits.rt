//! The greatest numbers of workers and of requests for one counter.

/// The greatest number of drawers of a counter. Each worker that draws from the counter has one
/// drawer.
pub const MOST_DRAWERS: usize = 64;

/// The greatest number of requests for which a counter can be made. Workers draw the indexes of the
/// requests from the counter.
pub const MOST_REQUESTS: u64 = 1_000_000;
