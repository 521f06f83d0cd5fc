//! A write that fails while a row is accepted, and the words of each such failure.

use cspf_stream::BatchRefusal;
use std::fmt;

/// A write failed while a row was accepted, so the row is refused.
#[derive(Clone, Copy, Debug, PartialEq, Eq)]
pub enum WriteFault {
    /// A write of the row's text to the writer `keep` failed or wrote no byte.
    Keep {
        /// How many bytes of the text were written.
        written: usize,
    },
    /// A write to the journal, of the text of the row's batch, failed or wrote no byte. The row's
    /// own text is in `keep`. `routed book` has no journal, so this happens in no run of it.
    Journal {
        /// How many bytes of the batch's text were written.
        written: usize,
    },
}

impl fmt::Display for WriteFault {
    ghost use Rattle.std.specs.Prelude.{Some};
    ghost use Rattle.cspf_book_run.specs.WriteFaultWords.{write_fault_words};

    ghost output = { λ fault. Some (write_fault_words fault) };

    fn fmt<W: fmt::Write>(&self, f: &mut fmt::Formatter<W>) -> fmt::Result {
        match self {
            WriteFault::Keep { written } => write!(f, "keep {written}"),
            WriteFault::Journal { written } => write!(f, "journal {written}"),
        }
    }
}

impl WriteFault {
    ghost use Rattle.std.specs.Prelude.{◌≡◌};
    ghost use Rattle.cspf_book_run.specs.WriteFaultWords.{batch_refusal_of};

    /// The refusal of a base batch, if its row is refused because of this failure.
    pub(crate) fn batch_refusal(self) -> BatchRefusal
        ensures { result ≡ batch_refusal_of self }
    {
        match self {
            WriteFault::Keep { written } => BatchRefusal::Keep { written },
            WriteFault::Journal { written } => BatchRefusal::Journal { written },
        }
    }
}
