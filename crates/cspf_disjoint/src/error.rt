ghost use Rattle.std.specs.Prelude.{◌≡◌};
ghost use Rattle.cspf_disjoint.specs.declared.error.PairError.TheVariants as pair_error;

use std::alloc::AllocError;
use thiserror::Error;

/// Why a request for a pair has no answer.
#[derive(Clone, Copy, Debug, PartialEq, Eq, Error)]
pub enum PairError {
    /// Memory was refused.
    #[error("out of memory")]
    Memory,
    /// The search found an answer that its potentials don't prove. No run is known in which this
    /// happens.
    #[error("an answer without a proof")]
    Undecided,
}

impl From<AllocError> for PairError {
    ghost from_gives = { λ _ error. error ≡ pair_error.Memory };

    fn from(_refused: AllocError) -> PairError {
        PairError::Memory
    }
}
