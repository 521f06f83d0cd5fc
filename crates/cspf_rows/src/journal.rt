//! Journals. The batches of a journal are numbered 1, 2, 3 and so on. They are the longest prefix
//! of the journal's rows that consists of whole batches. Rows may follow this prefix.

mod laws;
mod reader;
mod taken_row;
mod whole;

use cspf_model::Batch;
pub use laws::{journals_are_one, journals_are_read_back};
pub use reader::JournalReader;
pub use whole::read_journal;

/// What follows the last whole batch of a journal.
#[derive(Clone, Copy, Debug, PartialEq, Eq)]
pub enum Rest {
    /// No row of the journal follows its last whole batch.
    Clean,
    /// At least one row follows the last whole batch. The rows after this batch don't begin with a
    /// whole batch of the next number.
    Torn,
}

/// What the next read of a journal finds: a batch, or the end of the batches.
#[derive(Clone, Copy, Debug, PartialEq, Eq)]
pub enum JournalStep {
    /// One more whole batch.
    Batch,
    /// No batch is left. The value says whether rows follow the last batch.
    End(Rest),
}

/// The contents of a journal: its batches, numbered 1, 2, 3 and so on, and whether rows follow the
/// batches.
#[derive(Debug, Drop)]
pub struct Journal {
    /// The batches, in order.
    pub batches: Vec<Batch>,
    /// Whether rows follow the last batch. Such rows are in no batch.
    pub rest: Rest,
}
