//! The lines of a run, except for the replies to requests.

ghost use Rattle.std.specs.Prelude.{◌≡◌};
ghost use Rattle.cspf_serve.specs.LiveWords.{refusal_of};

use cspf_publish::ApplyError;
use cspf_stream::{BatchRefusal, StreamLine};
use std::alloc::{AllocError, Global};
use std::fmt;

/// A line of a run that isn't the reply to a request.
#[derive(Clone, Copy)]
pub(crate) enum Line {
    /// A line that a run over one stream of rows writes, too.
    Stream(StreamLine),
    /// How many batches were published.
    Applied { count: u32 },
    /// The batch with this number wasn't published.
    Unpublished { number: u32, error: ApplyError },
}

impl fmt::Display for Line {
    ghost use Rattle.std.specs.Prelude.{Some};
    ghost use Rattle.cspf_serve.specs.LineTexts.{line_text};

    ghost output = { λ line. Some (line_text line) };

    fn fmt<W: fmt::Write>(&self, f: &mut fmt::Formatter<W>) -> fmt::Result {
        match *self {
            Line::Stream(line) => write!(f, "{line}"),
            Line::Applied { count } => write!(f, "applied {count}\n"),
            Line::Unpublished { number, error } => {
                let refusal = refusal_of(error);
                write!(f, "{}", StreamLine::RefusedBatch { number, refusal })
            }
        }
    }
}

impl Line {
    ghost use Rattle.std.specs.Prelude.{◌≡◌, IfOk};
    ghost use Rattle.cspf_serve.specs.LineTexts.{line_text};

    /// The bytes of the line, with its line feed.
    pub(crate) fn bytes(self, alloc: Global) -> Result<Vec<u8>, AllocError>
        ensures { IfOk result (λ bytes. bytes.items ≡ line_text self) }
    {
        Ok(format!(in alloc; "{self}")?.into_bytes())
    }
}

/// The refusal of a batch that the publisher didn't publish.
pub(crate) fn refusal_of(error: ApplyError) -> BatchRefusal
    ensures { result ≡ refusal_of error }
{
    match error {
        ApplyError::Stopped => BatchRefusal::Stopped,
        ApplyError::Exhausted => BatchRefusal::Exhausted,
        ApplyError::WrongNumber { expected } => BatchRefusal::WrongNumber { expected },
        ApplyError::Refused(why) => BatchRefusal::Unfit(why),
        ApplyError::Memory => BatchRefusal::Memory,
        ApplyError::Journal { written } => BatchRefusal::Journal { written },
    }
}
