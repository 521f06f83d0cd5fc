//! The limit on the rows (records) of a stream.

/// The greatest number of rows (records) in a stream.
pub const MOST_ROWS: u32 = 1_000_000;
