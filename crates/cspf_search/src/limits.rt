//! The weights of cost and links in the rank of a walk, the limits of the lower bounds of cost, and
//! the capacities that are reserved at the start of a search.

/// The bound of a state (a router in a leg) from which the backward search has found no way to the
/// tail-end.
pub(crate) const NO_WAY: u32 = 4_294_967_295;

/// The greatest bound of a state (a router in a leg) from which there may be a way to the tail-end.
/// The cost of this way may be greater than the bound.
pub(crate) const FARTHEST: u32 = 4_294_967_294;

/// The weight of one unit of cost in the rank of a walk, which packs the walk's cost and its number
/// of links into one number. Each link adds 1 to the rank. Every walk of a search has fewer than
/// `COST_WEIGHT` links.
pub(crate) const COST_WEIGHT: u64 = 16384;

/// The greatest lift, which is the greatest bound times `COST_WEIGHT`. The lift of a state is how
/// much its key in the heap exceeds the rank in its label. A state is a router in a leg, and a
/// label holds the best walk found so far to a state. A walk's rank packs its cost and its number
/// of links into one number.
pub(crate) const MOST_LIFT: u64 = 4_294_967_295 * COST_WEIGHT;

/// The number of waiting states (routers in legs) for which a heap reserves room at the start.
pub(crate) const ROOM_FOR_WAITING: usize = 512;

/// The number of settled nodes (records of walks) for which a search reserves room at the start.
pub(crate) const ROOM_FOR_NODES: usize = 64;

/// The greatest number of links of a way that counts in the rank of a tree's bound.
pub(crate) const MOST_COUNTED_LINKS: u16 = 1023;
