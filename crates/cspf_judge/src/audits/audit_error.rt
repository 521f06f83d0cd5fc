//! Why an audit ends before it judges the replies. The errors of the readers are converted to this
//! type.

ghost use Rattle.std.specs.Prelude.{◌≡◌};
ghost use Rattle.cspf_rows.specs.declared.read_error.ReadError.{ReadError as IsReadError};
ghost use Rattle.cspf_judge.specs.ErrorNames.{audit_error_of, requests_error_of, IsIoFault};
ghost use Rattle.cspf_judge.specs.declared.audits.audit_error.AuditError.TheVariants as audit_error;

use cspf_db::UnfitBatch;
use cspf_model::Refusal;
use cspf_rows::{ReadError, RequestsError};
use std::alloc::{AllocError, AllocFailed};
use std::io;
use thiserror::Error;

/// Why streams aren't audited: the first reason that applies. The journal, its batches, the requests,
/// their ids and the replies are checked in this order.
#[derive(Clone, Copy, Debug, PartialEq, Eq, Error)]
pub enum AuditError {
    /// Memory was refused.
    #[error("out of memory")]
    Memory,
    /// A read of one of the streams failed.
    #[error("a read failed")]
    Device,
    /// One stream has more than `MOST_ROWS` rows or lines.
    #[error("too many rows")]
    TooManyRows,
    /// Rows follow the last whole batch of the journal.
    #[error("the journal is torn after batch {after}")]
    Torn {
        /// The number of the last whole batch, or 0 if there is none.
        after: u32,
    },
    /// A batch of the journal doesn't fit the database of the batches before it.
    #[error("batch {number}: {refusal}")]
    Batch {
        /// The batch's number.
        number: u32,
        /// Why the batch doesn't fit.
        refusal: Refusal,
    },
    /// A row of the requests is refused, because it can't be read (`Bad`) or is no request
    /// (`NotAsk`).
    #[error("requests: {0}")]
    Requests(RequestsError),
    /// A row of the requests has the id of an earlier row.
    #[error("row {row} of the requests has the id of an earlier row")]
    SameId {
        /// The number of the row of the requests, counted from 1.
        row: u32,
    },
}

impl From<ReadError> for AuditError {
    ghost from_gives = { λ why error. error ≡ audit_error_of why };

    fn from(why: ReadError) -> AuditError {
        match why {
            ReadError::Memory => AuditError::Memory,
            ReadError::Device => AuditError::Device,
            ReadError::TooManyRows => AuditError::TooManyRows,
        }
    }
}

impl From<RequestsError> for AuditError {
    ghost from_gives = { λ why error. error ≡ requests_error_of why };

    fn from(why: RequestsError) -> AuditError {
        match why {
            RequestsError::Memory => AuditError::Memory,
            RequestsError::Device => AuditError::Device,
            RequestsError::TooManyRows => AuditError::TooManyRows,
            RequestsError::Bad { .. } | RequestsError::NotAsk { .. } => AuditError::Requests(why),
        }
    }
}

impl From<UnfitBatch> for AuditError {
    ghost from_gives = { λ unfit error. error ≡ audit_error.Batch unfit.number unfit.refusal };

    fn from(unfit: UnfitBatch) -> AuditError {
        let UnfitBatch { number, refusal } = unfit;
        AuditError::Batch { number, refusal }
    }
}

impl From<io::Error> for AuditError {
    ghost from_gives = { IsIoFault };

    fn from(why: io::Error) -> AuditError {
        if why.kind() == io::ErrorKind::OutOfMemory {
            AuditError::Memory
        } else {
            AuditError::Device
        }
    }
}

impl From<AllocError> for AuditError {
    ghost from_gives = { λ _ error. error ≡ audit_error.Memory };

    fn from(_refused: AllocError) -> AuditError {
        AuditError::Memory
    }
}

impl<T: Drop> From<AllocFailed<T>> for AuditError {
    ghost from_gives = { λ _ error. error ≡ audit_error.Memory };

    fn from(_refused: AllocFailed<T>) -> AuditError {
        AuditError::Memory
    }
}
