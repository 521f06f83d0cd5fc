//! Publishes copies of the database. One publisher applies batches. Each asker has a thread, and
//! answers requests from the last published version without waiting.
//!
//! A batch takes effect in one step: the swap of the two replicas (copies of the table). The search
//! of an asker also takes effect in one step: the asker's entry into a replica.
//!
//! The journal and the list of batches are those of `cspf_journal`. In that crate,
//! `specs/Histories.antt` says which lists of batches may be published, and
//! `specs/KnownBatches.antt` says which batches a publisher or an asker knows. A `Told` is a value
//! from which askers learn of published batches. In this crate, `specs/ReplicaRule.antt` has the
//! rule of the replicas, which is an invariant, and the effect of each kind of step.
#![tactic(auto)]

mod answer;
mod asker;
mod asker_seat;
mod errors;
mod known_trees;
mod limits;
mod prepared;
mod publisher;
mod replica;
mod replica_rule;
mod replicas;
mod seat_view;
mod told;

pub use answer::Answer;
pub use asker::Asker;
pub use cspf_journal::{Known, RowOfReader, SeenSteps};
pub use cspf_model::MOST_VERSIONS;
pub use cspf_trees::{Growth, MOST_TREE_MEGABYTES, TREE_MEGABYTES, growth_for, trees_in};
pub use errors::{ApplyError, AskError, OpenError};
pub use limits::MOST_ASKERS;
pub use prepared::PreparedBatch;
pub use publisher::{Publisher, open, open_over};
pub use told::Told;
