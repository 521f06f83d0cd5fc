//! Why the answers to a stream stop before the end of its rows.

ghost use Rattle.std.specs.Prelude.{◌≡◌};
ghost use Rattle.cspf_rows.specs.ReadFaults.{stream_fault_of};
ghost use Rattle.cspf_stream.specs.declared.error.RunStop.TheVariants as run_stop;
ghost use Rattle.cspf_stream.specs.declared.error.StreamError.TheVariants as stream_error;
ghost use Rattle.cspf_stream.specs.declared.error.StreamStop.TheVariants as stream_stop;

use cspf_rows::RecordError;
use std::alloc::AllocError;
use thiserror::Error;

/// Why the answers to a stream stop before the end of its rows.
#[derive(Clone, Copy, Debug, PartialEq, Eq, Error)]
pub enum StreamError {
    /// Memory was refused.
    #[error("out of memory")]
    Memory,
    /// A read failed.
    #[error("a read failed")]
    Read,
    /// A write failed, or wrote no byte.
    #[error("a write failed")]
    Write,
    /// A line was written, but the flush after it failed.
    #[error("a flush failed")]
    Flush,
    /// The stream has more rows than the limit allows. `answer_rows` has the limit
    /// `MOST_STREAM_ROWS`, which no run reaches.
    #[error("too many rows")]
    TooManyRows,
}

impl From<AllocError> for StreamError {
    ghost from_gives = { λ _ error. error ≡ stream_error.Memory };

    fn from(_refused: AllocError) -> StreamError {
        StreamError::Memory
    }
}

/// Why the answers to a stream stop: the stream itself stops, or the answer to a row fails with a
/// fault of the type `F`.
#[derive(Drop)]
pub enum StreamStop<F> {
    /// Memory was refused while a row was read, or a read, a write or a flush failed, or the stream
    /// has too many rows.
    Stream(StreamError),
    /// The answer to a row failed.
    Answer(F),
}

impl<F> From<RecordError> for StreamStop<F> {
    ghost from_gives = { λ fault stop. stop ≡ stream_stop.Stream (stream_fault_of stream_error.Memory stream_error.Read fault) };

    fn from(fault: RecordError) -> StreamStop<F> {
        StreamStop::Stream(fault.of_stream(StreamError::Memory, StreamError::Read))
    }
}

/// Why a run over the rows of a stream stops before its last line is written. The answer to a row
/// can fail with a fault of the type `F`.
#[derive(Drop)]
pub enum RunStop<F> {
    /// Memory was refused for a row that was read, or for the last line.
    Memory,
    /// A read failed.
    Read,
    /// A write failed, or took no bytes.
    Write {
        /// How many bytes the whole run wrote. The type is large enough for every run.
        written: u128,
    },
    /// The answer to a row failed.
    Answer(F),
}

impl<F> From<AllocError> for RunStop<F> {
    ghost from_gives = { λ _ stop. stop ≡ run_stop.Memory };

    fn from(_refused: AllocError) -> RunStop<F> {
        RunStop::Memory
    }
}

impl From<StreamStop<AllocError>> for StreamError {
    ghost use Rattle.cspf_stream.specs.StreamStops.{stream_error_of};

    ghost from_gives = { λ stop error. error ≡ stream_error_of stop };

    fn from(stop: StreamStop<AllocError>) -> StreamError {
        match stop {
            StreamStop::Stream(why) => why,
            StreamStop::Answer(_refused) => StreamError::Memory,
        }
    }
}

impl From<RecordError> for StreamError {
    ghost from_gives = { λ fault error. error ≡ stream_fault_of stream_error.Memory stream_error.Read fault };

    fn from(fault: RecordError) -> StreamError {
        fault.of_stream(StreamError::Memory, StreamError::Read)
    }
}
