ghost use Rattle.std.specs.Prelude.{◌≡◌};
ghost use Rattle.cspf_judge.specs.declared.snapshots.replay_error.ReplayError.TheVariants as replay_error;

use cspf_db::UnfitBatch;
use cspf_model::Refusal;
use std::alloc::AllocError;
use thiserror::Error;

/// Why batches can't be replayed.
#[derive(Clone, Copy, Debug, PartialEq, Eq, Error)]
pub enum ReplayError {
    /// Memory was refused.
    #[error("out of memory")]
    Memory,
    /// A batch doesn't fit the database of the batches before it. It is the first such batch.
    #[error("batch {number}: {refusal}")]
    Refused {
        /// The number of this batch.
        number: u32,
        /// Why this batch doesn't fit the database of the batches before it.
        refusal: Refusal,
    },
}

impl From<UnfitBatch> for ReplayError {
    ghost from_gives = { λ unfit error. error ≡ replay_error.Refused unfit.number unfit.refusal };

    fn from(unfit: UnfitBatch) -> ReplayError {
        let UnfitBatch { number, refusal } = unfit;
        ReplayError::Refused { number, refusal }
    }
}

impl From<AllocError> for ReplayError {
    ghost from_gives = { λ _ error. error ≡ replay_error.Memory };

    fn from(_refused: AllocError) -> ReplayError {
        ReplayError::Memory
    }
}
