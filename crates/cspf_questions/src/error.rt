//! Why the row of a question is refused, and the words of each refusal.

ghost use Rattle.std.specs.Prelude.{◌≡◌};

use cspf_rows::RowError;
use std::error::Error;
use std::fmt;

/// Why the row of a question is refused.
#[derive(Clone, Copy, Debug, PartialEq, Eq)]
pub enum QuestionError {
    /// The reason is one for which an `ask` row is refused.
    Row(RowError),
    /// The field of the exclusions spells none.
    Except(ExceptFault),
    /// The last field isn't a kind of pair.
    PairKind,
}

/// Why a field spells no exclusions.
#[derive(Clone, Copy, Debug, PartialEq, Eq)]
pub enum ExceptFault {
    /// The part with this number, counted from 1, is the first one that isn't an exclusion.
    Part {
        /// The number of the part.
        at: usize,
    },
    /// There are more than `MOST_EXCLUSIONS` parts.
    Count,
}

impl fmt::Display for QuestionError {
    ghost use Rattle.std.specs.Prelude.{Some};
    ghost use Rattle.cspf_questions.specs.QuestionWords.{question_words};

    ghost output = { λ error. Some (question_words error) };

    fn fmt<W: fmt::Write>(&self, f: &mut fmt::Formatter<W>) -> fmt::Result {
        match self {
            QuestionError::Row(error) => write!(f, "{error}"),
            QuestionError::Except(ExceptFault::Part { at }) => write!(f, "except {at}"),
            QuestionError::Except(ExceptFault::Count) => f.write_str("except count"),
            QuestionError::PairKind => f.write_str("kind-of-pair"),
        }
    }
}

impl Error for QuestionError {}
