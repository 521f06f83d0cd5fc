//! Why the program stops. `--explain` writes the reason before the last line of standard error.

use crate::noted::Fault;
use cspf_questions::QuestionRunError;
use cspf_serve::{RunError, ServedError, SolveError, StreamError};
use std::alloc::AllocError;
use std::io;

/// Why the program stops.
#[derive(Clone, Copy)]
pub enum Stopped {
    /// Memory was refused.
    Memory,
    /// A call on a file or a stream failed.
    Device(Fault),
    /// An error of `solve` or `book`.
    Solve(SolveError),
    /// The answer to a request for a pair isn't proved by what the search found.
    Undecided,
    /// An error of `serve` in reading the updates, or in writing the lines that answer them.
    Stream(StreamError),
    /// An error of `batch`, `live`, `snapshot` or `audit`.
    Run(RunError),
    /// An error of `serve` before it began to read updates.
    Serve(ServedError),
    /// The reason has been written already, and this is the status.
    Said(u8),
}

/// The result of a run: a status, or why the program stops.
pub type Ran = Result<u8, Stopped>;

impl Stopped {
    /// The reason that this call on this device failed.
    pub(crate) fn at(device: &'static str, action: &'static str, error: io::Error) -> Stopped {
        Stopped::Device(Fault {
            device,
            action,
            error,
        })
    }

    /// Adds the failed device to the reason, if a device failed and the reason doesn't name it yet.
    /// `read` is the last call that failed on the input devices, if any. `written` is the last call
    /// that failed on the output devices.
    pub(crate) fn by(self, read: Option<Fault>, written: Option<Fault>) -> Stopped {
        let noted = match self {
            Stopped::Run(RunError::Device) => read.or(written),
            Stopped::Solve(SolveError::Read) | Stopped::Stream(StreamError::Read) => read,
            Stopped::Solve(SolveError::Write { .. })
            | Stopped::Stream(StreamError::Write | StreamError::Flush) => written,
            _ => None,
        };
        match noted {
            Some(fault) => Stopped::Device(fault),
            None => self,
        }
    }
}

/// The result of a run of `batch`, `live`, `snapshot` or `audit`, with the failed device. `read` is
/// the last call that failed on an input of the run, if any.
pub(crate) fn ended(ran: Result<u8, RunError>, read: Option<Fault>) -> Ran {
    match ran {
        Ok(status) => Ok(status),
        Err(error) => Err(Stopped::Run(error).by(read, None)),
    }
}

impl From<QuestionRunError> for Stopped {
    fn from(error: QuestionRunError) -> Stopped {
        match error {
            QuestionRunError::Solve(error) => Stopped::Solve(error),
            QuestionRunError::Undecided => Stopped::Undecided,
        }
    }
}

impl From<AllocError> for Stopped {
    fn from(_refused: AllocError) -> Stopped {
        Stopped::Memory
    }
}
