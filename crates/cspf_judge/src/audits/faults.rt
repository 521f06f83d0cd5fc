//! The result of an audit: the faults, their text, and the number of good lines.

use std::fmt;

/// What is wrong with the replies. Lines are counted from 1. Skipped lines are counted, too.
#[derive(Clone, Copy, Debug, PartialEq, Eq)]
pub enum AuditFault {
    /// A line doesn't begin with `ask`, an id and a version.
    Unread {
        /// The number of the line.
        line: u32,
    },
    /// No request has the line's id.
    Foreign {
        /// The number of the line.
        line: u32,
    },
    /// An earlier line has the line's id.
    Doubled {
        /// The number of the line.
        line: u32,
    },
    /// The line names a version above the journal's last version.
    NoVersion {
        /// The number of the line.
        line: u32,
    },
    /// The line isn't the reply to its request at its version.
    Altered {
        /// The number of the line.
        line: u32,
    },
    /// No line has the request's id.
    Unanswered {
        /// The id of the request.
        id: u64,
    },
}

impl fmt::Display for AuditFault {
    ghost use Rattle.std.specs.Prelude.{Some};
    ghost use Rattle.cspf_judge.specs.FaultWords.{fault_words};

    ghost output = { λ fault. Some (fault_words fault) };

    fn fmt<W: fmt::Write>(&self, f: &mut fmt::Formatter<W>) -> fmt::Result {
        match *self {
            AuditFault::Unread { line } => write!(f, "line {line} unread"),
            AuditFault::Foreign { line } => write!(f, "line {line} foreign"),
            AuditFault::Doubled { line } => write!(f, "line {line} doubled"),
            AuditFault::NoVersion { line } => write!(f, "line {line} no-version"),
            AuditFault::Altered { line } => write!(f, "line {line} altered"),
            AuditFault::Unanswered { id } => write!(f, "request {id} unanswered"),
        }
    }
}

/// What an audit found.
#[derive(Debug, Drop)]
pub struct Audit {
    /// How many of the lines that aren't skipped have no fault.
    pub good: u32,
    /// The faults of lines, in the order of the lines. After them, a fault for each request that no
    /// line answers, in the order of the requests.
    pub faults: Vec<AuditFault>,
}
