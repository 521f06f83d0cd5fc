use thiserror::Error;

/// Why a batch isn't recorded.
#[derive(Clone, Copy, Debug, PartialEq, Eq, Error)]
pub enum NotRecorded {
    /// The shared list of batches has batches that this journal didn't record. Nothing was written.
    #[error("the list has more batches than the journal")]
    Lost,
    /// The writer failed. The journal records no more batches.
    #[error("the journal failed after {written} bytes of the batch")]
    Writer {
        /// The number of bytes of the batch's text that were written.
        written: usize,
    },
}
