//! The number of marks for which a table has capacity.
use cspf_model::{MOST_CHANGES, MOST_MARKS};

/// The number of marks for which a table has capacity: the marks of a full database, and another
/// mark for each change of a batch. A mark says that a router has no transit.
pub const ROOM_FOR_MARKS: usize = MOST_MARKS + MOST_CHANGES;
