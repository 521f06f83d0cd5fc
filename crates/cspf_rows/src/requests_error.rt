use crate::row_error::RowError;
use thiserror::Error;

/// Why requests can't be read. Rows are counted from 1.
#[derive(Clone, Copy, Debug, PartialEq, Eq, Error)]
pub enum RequestsError {
    /// Memory was refused.
    #[error("out of memory")]
    Memory,
    /// A read failed.
    #[error("a read failed")]
    Device,
    /// The stream has more than `MOST_ROWS` rows.
    #[error("too many rows")]
    TooManyRows,
    /// A record is no row.
    #[error("row {row}: {error}")]
    Bad {
        /// The number of the record in its stream.
        row: u32,
        /// Why the record is no row.
        error: RowError,
    },
    /// A row of the stream is no request.
    #[error("row {row} asks for nothing")]
    NotAsk {
        /// The number of the row in its stream.
        row: u32,
    },
}
