//! Why a run with a publisher stops, and the conversions of other errors into this error.

ghost use Rattle.std.specs.Prelude.{◌≡◌};
ghost use Rattle.cspf_serve.specs.ErrorNames.{run_error_of};
ghost use Rattle.cspf_serve.specs.RunFaults.{judged_error_of};
ghost use Rattle.cspf_serve.specs.declared.streams.error.RunError.TheVariants as run_error;

use crate::ServeError;
use cspf_judge::JudgeError;
use cspf_publish::OpenError;
use std::alloc::AllocError;
use thiserror::Error;

/// Why a run over a journal and requests, or over updates and requests, stops.
#[derive(Clone, Copy, Debug, PartialEq, Eq, Error)]
pub enum RunError {
    /// Memory was refused.
    #[error("out of memory")]
    Memory,
    /// A read failed, or a write failed or accepted no bytes.
    #[error("a read or a write failed")]
    Device,
    /// The replicas (the two copies of the database's table) have no place for another reader. This
    /// error happens in no run, since `open` makes a place for each reader.
    #[error("no place for a reader")]
    Places,
    /// The workers didn't answer all requests.
    #[error("{0}")]
    Serve(ServeError),
}

impl From<AllocError> for RunError {
    ghost from_gives = { λ _ error. error ≡ run_error.Memory };

    fn from(_refused: AllocError) -> RunError {
        RunError::Memory
    }
}

impl From<JudgeError> for RunError {
    ghost from_gives = { λ fault error. error ≡ judged_error_of fault };

    fn from(fault: JudgeError) -> RunError {
        match fault {
            JudgeError::Memory => RunError::Memory,
            JudgeError::Device => RunError::Device,
        }
    }
}

impl From<OpenError> for RunError {
    ghost from_gives = { λ refused error. error ≡ run_error_of refused };

    fn from(refused: OpenError) -> RunError {
        match refused {
            OpenError::Memory => RunError::Memory,
            // `Askers` doesn't happen: a run has 1 to 64 workers or clients, and `open` allows 1 to
            // 64 askers.
            OpenError::Askers | OpenError::Places => RunError::Places,
        }
    }
}

impl From<ServeError> for RunError {
    ghost from_gives = { λ fault error. error ≡ run_error.Serve fault };

    fn from(fault: ServeError) -> RunError {
        RunError::Serve(fault)
    }
}
