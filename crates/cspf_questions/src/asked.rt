//! Rows that ask, and why a stream of them isn't read.

ghost use Rattle.std.specs.Prelude.{◌≡◌};
ghost use Rattle.cspf_rows.specs.ReadFaults.{stream_fault_of};
ghost use Rattle.cspf_rows.specs.declared.requests_error.RequestsError.TheVariants as requests_error;
ghost use Rattle.cspf_questions.specs.declared.asked.AskedError.TheVariants as asked_error;

use crate::error::QuestionError;
use crate::question::Question;
use cspf_model::Request;
use cspf_rows::{RecordError, RequestsError};
use std::alloc::AllocError;
use std::error::Error;
use std::fmt;

/// A row that asks.
#[derive(Debug, Drop)]
pub enum AskedRow {
    /// An `ask` row.
    Ask(Request),
    /// The row of a question.
    Question(Question),
}

impl AskedRow {
    ghost use Rattle.cspf_questions.specs.AskedRows.{asked_id};

    /// The id of the row. Its answer repeats this number.
    pub fn id(&self) -> u64
        ensures { result ≡ asked_id self.now }
    {
        match self {
            AskedRow::Ask(request) => request.id,
            AskedRow::Question(question) => question.id(),
        }
    }
}

/// Why a stream of rows that ask isn't read. Rows are counted from 1.
#[derive(Clone, Copy, Debug, PartialEq, Eq)]
pub enum AskedError {
    /// The reason is one for which a stream of `ask` rows isn't read, either.
    Requests(RequestsError),
    /// The row of a question is refused.
    Question {
        /// The number of the row in its stream.
        row: u32,
        /// Why the row is refused.
        error: QuestionError,
    },
}

impl fmt::Display for AskedError {
    fn fmt<W: fmt::Write>(&self, f: &mut fmt::Formatter<W>) -> fmt::Result {
        match self {
            AskedError::Requests(why) => write!(f, "{why}"),
            AskedError::Question { row, error } => write!(f, "row {row}: {error}"),
        }
    }
}

impl Error for AskedError {}

impl From<RecordError> for AskedError {
    ghost from_gives = { λ error why. why ≡ asked_error.Requests (stream_fault_of requests_error.Memory requests_error.Device error) };

    fn from(error: RecordError) -> AskedError {
        AskedError::Requests(error.of_stream(RequestsError::Memory, RequestsError::Device))
    }
}

impl From<AllocError> for AskedError {
    ghost from_gives = { λ _ why. why ≡ asked_error.Requests requests_error.Memory };

    fn from(_refused: AllocError) -> AskedError {
        AskedError::Requests(RequestsError::Memory)
    }
}
