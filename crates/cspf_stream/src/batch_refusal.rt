//! Why a batch is refused, and the words of each reason.

use cspf_model::Refusal;
use std::error::Error;
use std::fmt;

/// Why a batch is refused.
#[derive(Clone, Copy, Debug, PartialEq, Eq)]
pub enum BatchRefusal {
    /// A write of an earlier batch's text failed, so no more batches are accepted.
    Stopped,
    /// The current version is 1,000,000, the greatest version.
    Exhausted,
    /// The number in the `end` row isn't the next version.
    WrongNumber {
        /// The next version, which the number should be.
        expected: u32,
    },
    /// The count in the `end` row isn't the number of open changes.
    WrongCount {
        /// How many changes are open, which are the changes since the previous `end` row.
        counted: u64,
    },
    /// The batch doesn't fit the database.
    Unfit(Refusal),
    /// Memory was refused.
    Memory,
    /// The journal failed while the batch was written.
    Journal {
        /// How many bytes of the batch's text were written.
        written: usize,
    },
    /// The writer that keeps the accepted rows failed while the batch was written.
    Keep {
        /// How many bytes of the batch's text were written.
        written: usize,
    },
}

impl fmt::Display for BatchRefusal {
    ghost use Rattle.std.specs.Prelude.{Some};
    ghost use Rattle.cspf_stream.specs.BatchWords.{batch_words};

    ghost output = { λ refusal. Some (batch_words refusal) };

    fn fmt<W: fmt::Write>(&self, f: &mut fmt::Formatter<W>) -> fmt::Result {
        match self {
            BatchRefusal::Stopped => f.write_str("stopped"),
            BatchRefusal::Exhausted => f.write_str("exhausted"),
            BatchRefusal::WrongNumber { expected } => write!(f, "expected {expected}"),
            BatchRefusal::WrongCount { counted } => write!(f, "counted {counted}"),
            BatchRefusal::Unfit(Refusal::TooLong) => f.write_str("long"),
            BatchRefusal::Unfit(Refusal::Duplicate { at }) => write!(f, "duplicate {at}"),
            BatchRefusal::Unfit(Refusal::Absent { at }) => write!(f, "absent {at}"),
            BatchRefusal::Unfit(Refusal::Full) => f.write_str("full"),
            BatchRefusal::Unfit(Refusal::TooManyRouters) => f.write_str("routers"),
            BatchRefusal::Unfit(Refusal::TooManyMarks) => f.write_str("marks"),
            BatchRefusal::Memory => f.write_str("memory"),
            BatchRefusal::Journal { written } => write!(f, "journal {written}"),
            BatchRefusal::Keep { written } => write!(f, "keep {written}"),
        }
    }
}

impl Error for BatchRefusal {}
