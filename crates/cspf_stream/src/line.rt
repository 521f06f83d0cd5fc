use crate::BatchRefusal;
use std::alloc::{AllocError, Global};
use std::fmt;

/// A line that answers a row or ends a stream. Replies and the lines of refused rows aren't such
/// lines.
#[derive(Clone, Copy)]
pub enum StreamLine {
    /// A batch is accepted. `version` is the version that this batch makes.
    Version { version: u32 },
    /// The batch with this number is refused.
    RefusedBatch { number: u32, refusal: BatchRefusal },
    /// This many changes are still open after the last row of the stream, so they are in no batch.
    Unended { count: u64 },
    /// The stream has more rows than the limit allows. The rows past the limit aren't answered.
    TooManyRows,
}

impl fmt::Display for StreamLine {
    ghost use Rattle.std.specs.Prelude.{Some};
    ghost use Rattle.cspf_stream.specs.LineTexts.{stream_line_text};

    ghost output = { λ line. Some (stream_line_text line) };

    fn fmt<W: fmt::Write>(&self, f: &mut fmt::Formatter<W>) -> fmt::Result {
        match *self {
            StreamLine::Version { version } => write!(f, "version {version}\n"),
            StreamLine::RefusedBatch { number, refusal } => {
                write!(f, "batch {number} refused: {refusal}\n")
            }
            StreamLine::Unended { count } => write!(f, "unended {count}\n"),
            StreamLine::TooManyRows => f.write_str("too many rows\n"),
        }
    }
}

impl StreamLine {
    ghost use Rattle.std.specs.Prelude.{◌≡◌, IfOk};
    ghost use Rattle.cspf_stream.specs.LineTexts.{stream_line_text};

    /// The bytes of the line, including the line feed.
    pub fn bytes(self, alloc: Global) -> Result<Vec<u8>, AllocError>
        ensures { IfOk result (λ bytes. bytes.items ≡ stream_line_text self) }
    {
        Ok(format!(in alloc; "{self}")?.into_bytes())
    }
}
