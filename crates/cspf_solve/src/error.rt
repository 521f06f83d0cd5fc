ghost use Rattle.std.specs.Prelude.{◌≡◌};

use cspf_rows::RecordError;
use cspf_stream::RunStop;
use std::alloc::AllocError;
use thiserror::Error;

/// Why a run stops before the end of the rows of its stream.
#[derive(Clone, Copy, Debug, PartialEq, Eq, Error)]
pub enum SolveError {
    /// Memory was refused.
    #[error("out of memory")]
    Memory,
    /// A read failed.
    #[error("a read failed")]
    Read,
    /// A write failed, or wrote no byte.
    #[error("a write failed after {written} bytes")]
    Write {
        /// How many bytes the whole run wrote. The type is large enough for every run.
        written: u128,
    },
}

impl From<AllocError> for SolveError {
    ghost use Rattle.cspf_solve.specs.declared.error.SolveError.TheVariants as solve_error;

    ghost from_gives = { λ _ error. error ≡ solve_error.Memory };

    fn from(_refused: AllocError) -> SolveError {
        SolveError::Memory
    }
}

impl From<RecordError> for SolveError {
    ghost use Rattle.cspf_rows.specs.ReadFaults.{stream_fault_of};
    ghost use Rattle.cspf_solve.specs.declared.error.SolveError.TheVariants as solve_error;

    ghost from_gives = { λ fault error. error ≡ stream_fault_of solve_error.Memory solve_error.Read fault };

    fn from(fault: RecordError) -> SolveError {
        fault.of_stream(SolveError::Memory, SolveError::Read)
    }
}

impl From<RunStop<AllocError>> for SolveError {
    ghost use Rattle.cspf_solve.specs.OutputAtError.{solve_error_of};

    ghost from_gives = { λ stop error. error ≡ solve_error_of stop };

    fn from(stop: RunStop<AllocError>) -> SolveError {
        match stop {
            RunStop::Memory | RunStop::Answer(_) => SolveError::Memory,
            RunStop::Read => SolveError::Read,
            RunStop::Write { written } => SolveError::Write { written },
        }
    }
}
