//! The limit on the number of batches in a snapshot.

use cspf_model::{MOST_CHANGES, MOST_LINKS, MOST_MARKS};

/// The most batches in a snapshot. They are enough for one change for each of `MOST_LINKS` links,
/// and one for each of `MOST_MARKS` routers that are marked as without transit.
pub const MOST_SNAPSHOT_BATCHES: usize = 5;

const _: () = prove!(MOST_LINKS + MOST_MARKS <= MOST_SNAPSHOT_BATCHES * MOST_CHANGES);
