//! The steps of a journal: a step adds to its list of batches, or raises or reads its count of
//! published batches.
use cspf_model::Batch;

/// A step of a journal: it adds to the list of batches, or raises or reads the count of published
/// batches. No value of this type is made at run time.
pub enum LogStep {
    /// A batch is added to the journal's list of batches.
    Recorded(Batch),
    /// One more batch is published. The number is the count of published batches after this step.
    Published(u32),
    /// A reader reads the count of published batches before it answers a row.
    Read {
        /// The number of the reader.
        reader: u64,
        /// The number of the row among the reader's rows, counted from 1.
        place: u64,
        /// The count of published batches that the reading finds.
        count: u32,
    },
}

/// The reader that reads the count of published batches, and the row that it is about to answer.
#[derive(Clone, Copy)]
pub struct RowOfReader {
    /// The number of the reader.
    pub reader: u64,
    /// The number of the row among the reader's rows, counted from 1.
    pub place: u64,
}
