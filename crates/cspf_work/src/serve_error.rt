//! Why workers don't answer all requests.

ghost use Rattle.std.specs.Prelude.{◌≡◌};

use cspf_publish::AskError;
use std::alloc::AllocError;
use thiserror::Error;

/// Why workers don't answer all requests.
#[derive(Clone, Copy, Debug, PartialEq, Eq, Error)]
pub enum ServeError {
    /// Out of memory.
    #[error("out of memory")]
    Memory,
    /// A worker couldn't enter (begin to read) the published replica, a copy of the database.
    #[error("no entry")]
    NoEntry,
    /// A worker couldn't be started.
    #[error("a worker couldn't be started")]
    NoWorker,
    /// A request has no answer.
    #[error("request {index} has no answer")]
    Missing {
        /// The request's index, from 0.
        index: usize,
    },
    /// A request has two answers.
    #[error("request {index} has two answers")]
    Twice {
        /// The request's index, from 0.
        index: usize,
    },
    /// An answer has a version that isn't published.
    #[error("request {index} is answered at version {version}, which is not published")]
    Unaccounted {
        /// The request's index, from 0.
        index: usize,
        /// The answer's version.
        version: u32,
    },
}

impl From<AskError> for ServeError {
    ghost use Rattle.cspf_work.specs.AskingErrors.{serve_error_of};

    ghost from_gives = { λ fault error. error ≡ serve_error_of fault };

    fn from(fault: AskError) -> ServeError {
        match fault {
            AskError::NoEntry => ServeError::NoEntry,
            AskError::Memory => ServeError::Memory,
        }
    }
}

impl From<AllocError> for ServeError {
    ghost use Rattle.cspf_work.specs.declared.serve_error.ServeError.TheVariants as serve_error;

    ghost from_gives = { λ _ error. error ≡ serve_error.Memory };

    fn from(_refused: AllocError) -> ServeError {
        ServeError::Memory
    }
}
