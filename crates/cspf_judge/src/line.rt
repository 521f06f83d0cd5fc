//! The lines of a run over a journal, requests or replies, except reply lines.

use crate::AuditFault;
use cspf_questions::QuestionError;
use cspf_rows::RowError;
use cspf_stream::StreamLine;
use std::alloc::{AllocError, Global};
use std::fmt;

/// A line, other than a reply line, of a run over a journal, requests or replies.
#[derive(Clone, Copy)]
pub enum JudgeLine {
    /// One of the lines that a run over a stream of rows also writes.
    Stream(StreamLine),
    /// The journal is torn: rows follow this many whole batches.
    Torn { count: usize },
    /// The request row with this number is refused.
    RefusedRequest { row: u32, error: RowError },
    /// The request row with this number, the row of a question, is refused.
    RefusedQuestion { row: u32, error: QuestionError },
    /// The request row with this number has the same id as an earlier row.
    SameId { row: u32 },
    /// The audit found this fault.
    Fault { fault: AuditFault },
    /// The numbers of good lines and of faults that the audit found. A good line isn't skipped and
    /// has no fault.
    Audited { good: u32, faults: usize },
}

impl fmt::Display for JudgeLine {
    ghost use Rattle.std.specs.Prelude.{Some};
    ghost use Rattle.cspf_judge.specs.LineTexts.{judge_line_text};

    ghost output = { λ line. Some (judge_line_text line) };

    fn fmt<W: fmt::Write>(&self, f: &mut fmt::Formatter<W>) -> fmt::Result {
        match *self {
            JudgeLine::Stream(line) => write!(f, "{line}"),
            JudgeLine::Torn { count } => write!(f, "journal torn after {count}\n"),
            JudgeLine::RefusedRequest { row, error } => write!(
                f,
                "request row {row} refused: {error}\n"
            ),
            JudgeLine::RefusedQuestion { row, error } => write!(
                f,
                "request row {row} refused: {error}\n"
            ),
            JudgeLine::SameId { row } => write!(f, "request row {row} refused: same-id\n"),
            JudgeLine::Fault { fault } => write!(f, "{fault}\n"),
            JudgeLine::Audited { good, faults } => write!(f, "good={good} faults={faults}\n"),
        }
    }
}

impl JudgeLine {
    ghost use Rattle.std.specs.Prelude.{◌≡◌, IfOk};
    ghost use Rattle.cspf_judge.specs.LineTexts.{judge_line_text};

    /// The bytes of the line, with its line feed.
    pub(crate) fn bytes(self, alloc: Global) -> Result<Vec<u8>, AllocError>
        ensures { IfOk result (λ bytes. bytes.items ≡ judge_line_text self) }
    {
        Ok(format!(in alloc; "{self}")?.into_bytes())
    }
}
