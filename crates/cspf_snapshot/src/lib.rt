//! The snapshot of a database: the few batches that make it from the empty database.
//! `specs/Snapshots.antt` defines the snapshot, and `specs/SnapshotLaws.antt` says that a database
//! has only one.
#![tactic(auto)]

mod cutting;
mod laws;
mod limits;
mod making;

pub use laws::one_snapshot;
pub use limits::MOST_SNAPSHOT_BATCHES;
pub use making::snapshot;
