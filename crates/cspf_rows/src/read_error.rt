use thiserror::Error;

/// Why a journal can't be read.
#[derive(Clone, Copy, Debug, PartialEq, Eq, Error)]
pub enum ReadError {
    /// Memory was refused.
    #[error("out of memory")]
    Memory,
    /// A read failed.
    #[error("a read failed")]
    Device,
    /// The journal has more than `MOST_ROWS` rows.
    #[error("too many rows")]
    TooManyRows,
}
