use cspf_model::MOST_CHANGES;

/// The greatest number of rows of a stream that are answered: 2^64 - 1.
pub const MOST_STREAM_ROWS: u64 = u64::MAX;

/// The greatest number of open changes that are kept. It is one more than a batch may have, so that
/// a batch with too many changes is noticed.
pub(crate) const KEPT_CHANGES: usize = MOST_CHANGES + 1;
