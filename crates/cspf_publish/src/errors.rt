//! Why a publisher is not opened, a batch is not published, and a request is not answered.

ghost use Rattle.std.specs.Prelude.{◌≡◌};
ghost use Rattle.cspf_publish.specs.declared.errors.OpenError.TheVariants as open_error;
ghost use Rattle.cspf_publish.specs.declared.errors.AskError.TheVariants as ask_error;

use crate::limits::MOST_ASKERS;
use cspf_model::{MOST_VERSIONS, Refusal};
use std::alloc::AllocError;
use thiserror::Error;

/// Why no publisher is opened.
#[derive(Clone, Copy, Debug, PartialEq, Eq, Error)]
pub enum OpenError {
    /// The number of askers (which answer requests) is 0 or above 64.
    #[error("the number of askers is not 1 to {most}", most = MOST_ASKERS)]
    Askers,
    /// Out of memory.
    #[error("out of memory")]
    Memory,
    /// The replicas (the table's two copies) have no place for another reader. This error happens
    /// in no run, since `open` makes a place for each asker's reader.
    #[error("no place for a reader")]
    Places,
}

impl From<AllocError> for OpenError {
    ghost from_gives = { λ _ error. error ≡ open_error.Memory };

    fn from(_refused: AllocError) -> OpenError {
        OpenError::Memory
    }
}

/// Why a batch isn't published. Every error except `Journal` leaves the publisher unchanged.
#[derive(Clone, Copy, Debug, PartialEq, Eq, Error)]
pub enum ApplyError {
    /// The journal failed at an earlier batch.
    #[error("stopped by a fault of the journal")]
    Stopped,
    /// 1,000,000 batches are already published. More aren't allowed.
    #[error("{most} batches are published", most = MOST_VERSIONS)]
    Exhausted,
    /// The batch's number isn't the published version plus 1.
    #[error("expected batch {expected}")]
    WrongNumber {
        /// The number that the batch should have: the published version plus 1.
        expected: u32,
    },
    /// The batch doesn't fit the published database.
    #[error("{0}")]
    Refused(Refusal),
    /// Out of memory. The same batch may be accepted later.
    #[error("out of memory")]
    Memory,
    /// The journal's writer failed. The publisher publishes no more batches.
    #[error("the journal failed after {written} bytes of the batch")]
    Journal {
        /// The number of bytes of the batch's text that were written.
        written: usize,
    },
}

/// Why a request isn't answered.
#[derive(Clone, Copy, Debug, PartialEq, Eq, Error)]
pub enum AskError {
    /// The published replica (a copy of the table) couldn't be entered. The asker is unchanged.
    #[error("no entry")]
    NoEntry,
    /// Out of memory. The asker (which answers requests) may know more batches than before.
    #[error("out of memory")]
    Memory,
}

impl From<AllocError> for AskError {
    ghost from_gives = { λ _ error. error ≡ ask_error.Memory };

    fn from(_refused: AllocError) -> AskError {
        AskError::Memory
    }
}
