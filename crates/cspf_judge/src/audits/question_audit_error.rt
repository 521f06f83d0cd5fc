//! Why an audit of rows that also ask questions ends before it judges the replies.

ghost use Rattle.std.specs.Prelude.{◌≡◌};
ghost use Rattle.cspf_judge.specs.ErrorNames.{question_audit_error_of};
ghost use Rattle.cspf_judge.specs.declared.audits.audit_error.AuditError.TheVariants as audit_error;
ghost use Rattle.cspf_judge.specs.declared.audits.question_audit_error.QuestionAuditError.TheVariants as question_audit_error;

use crate::AuditError;
use cspf_questions::{AskedError, QuestionError};
use std::alloc::AllocError;
use std::error::Error;
use std::fmt;

/// Why streams in which rows also ask questions aren't audited: the first reason that applies.
#[derive(Clone, Copy, Debug, PartialEq, Eq)]
pub enum QuestionAuditError {
    /// The reason is one for which streams with `ask` rows alone aren't audited, either.
    Audit(AuditError),
    /// The row of a question is refused.
    Question {
        /// The number of the row of the requests, counted from 1.
        row: u32,
        /// Why the row is refused.
        error: QuestionError,
    },
}

impl fmt::Display for QuestionAuditError {
    fn fmt<W: fmt::Write>(&self, f: &mut fmt::Formatter<W>) -> fmt::Result {
        match self {
            QuestionAuditError::Audit(why) => write!(f, "{why}"),
            QuestionAuditError::Question { row, error } => {
                write!(f, "row {row} of the requests: {error}")
            }
        }
    }
}

impl Error for QuestionAuditError {}

impl From<AuditError> for QuestionAuditError {
    ghost from_gives = { λ why error. error ≡ question_audit_error.Audit why };

    fn from(why: AuditError) -> QuestionAuditError {
        QuestionAuditError::Audit(why)
    }
}

impl From<AskedError> for QuestionAuditError {
    ghost from_gives = { λ why error. error ≡ question_audit_error_of why };

    fn from(why: AskedError) -> QuestionAuditError {
        match why {
            AskedError::Requests(why) => QuestionAuditError::Audit(AuditError::from(why)),
            AskedError::Question { row, error } => QuestionAuditError::Question { row, error },
        }
    }
}

impl From<AllocError> for QuestionAuditError {
    ghost from_gives = { λ _ error. error ≡ question_audit_error.Audit audit_error.Memory };

    fn from(_refused: AllocError) -> QuestionAuditError {
        QuestionAuditError::Audit(AuditError::Memory)
    }
}
