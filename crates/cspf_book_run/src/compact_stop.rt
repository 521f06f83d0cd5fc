//! Why no compact stream is made of a stream of rows.

ghost use Rattle.std.specs.Prelude.{◌≡◌};
ghost use Rattle.cspf_stream.specs.declared.error.StreamError.TheVariants as stream_error;
ghost use Rattle.cspf_book_run.specs.declared.compact_stop.CompactStop.TheVariants as stop;

use cspf_stream::{StreamError, StreamStop};
use std::alloc::AllocError;

/// Why no compact stream is made of a stream of rows.
#[derive(Drop)]
pub enum CompactStop {
    /// Memory was refused, or a read failed.
    Stream(StreamError),
    /// A row is refused.
    Refused {
        /// The number of the row, counted from 1.
        row: u64,
        /// The line that refuses the row.
        line: Vec<u8>,
    },
    /// After the last row, changes are open.
    Unended {
        /// The line that says how many.
        line: Vec<u8>,
    },
}

impl From<AllocError> for CompactStop {
    ghost from_gives = { λ _ why. why ≡ stop.Stream stream_error.Memory };

    fn from(_refused: AllocError) -> CompactStop {
        CompactStop::Stream(StreamError::Memory)
    }
}

impl From<StreamStop<CompactStop>> for CompactStop {
    ghost use Rattle.cspf_book_run.specs.CompactStates.{compact_stop_of};

    ghost from_gives = { λ ended why. why ≡ compact_stop_of ended };

    fn from(ended: StreamStop<CompactStop>) -> CompactStop {
        match ended {
            StreamStop::Stream(why) => CompactStop::Stream(why),
            StreamStop::Answer(why) => why,
        }
    }
}
