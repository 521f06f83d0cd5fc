//! The limits of the two searches.

/// The rank that stands for no way.
pub(crate) const NO_WAY: u64 = 9_007_199_254_740_992;

/// The greatest rank that a search gives a router. A way to this router may have a greater rank.
pub(crate) const FARTHEST: u64 = 9_007_199_254_740_991;

/// The number of keys that a heap has room for at the start.
pub(crate) const ROOM_FOR_WAITING: usize = 512;

/// The number of routers that a list of routers has room for at the start.
pub(crate) const ROOM_FOR_PLACES: usize = 64;

/// The number of waiting routers up to which only the search from the tail-end goes on.
pub(crate) const FEW: usize = 12;

/// The greatest number of keys that both searches take from their heaps.
pub(crate) const MOST_TURNS: usize = 65_536;

/// The greatest number of keys that the search from the tail-end takes from its heap before a search
/// that lower bounds guide.
pub(crate) const MOST_BACK_TURNS: usize = 32;

/// The greatest number of keys that a search takes that lower bounds guide. If there is no route,
/// such a search would look at all routers that it can reach. On drawn networks of 1,024 routers one
/// in 100 searches for a route takes more keys than this.
pub(crate) const MOST_GUIDED_TURNS: usize = 512;

/// The key that stands for no router.
pub(crate) const NO_KEY: u64 = 18_446_744_073_709_551_615;
