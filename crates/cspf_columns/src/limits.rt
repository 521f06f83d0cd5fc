//! The capacity of the columns, which is enough for a full database and a batch.
use cspf_model::{MOST_CHANGES, MOST_LINKS, MOST_ROUTERS};

/// The number of links for which the columns have capacity: the links of a full database, and one
/// link for each change of a batch.
pub const ROOM_FOR_LINKS: usize = MOST_LINKS + MOST_CHANGES;

/// The number of routers for which the columns have capacity: the routers of a full database, and
/// two routers for each change of a batch.
pub const ROOM_FOR_ROUTERS: usize = MOST_ROUTERS + 2 * MOST_CHANGES;

/// In place of the index of a link, this value means "no link". It is above the index of each link.
pub const NO_LINK: u16 = u16::MAX;
