//! The weights of cost and links in the rank of a way.

/// The weight of one unit of cost in the rank of a way, which packs the way's cost and its number
/// of links into one number. Each link adds 1 to the rank. The weight is the greatest number of
/// routers, so a way that visits no router twice has fewer links.
pub const COST_WEIGHT: u64 = 1024;

/// The number of links for which a walk reserves room at the start.
pub(crate) const ROOM_FOR_LINKS: usize = 16;
