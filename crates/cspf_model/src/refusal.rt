use crate::limits::{MOST_CHANGES, MOST_LINKS, MOST_MARKS, MOST_ROUTERS};
use thiserror::Error;

/// Why a batch doesn't fit a table. Positions of changes in the batch count from 1.
#[derive(Clone, Copy, Debug, PartialEq, Eq, Error)]
pub enum Refusal {
    /// The batch has more than `MOST_CHANGES` changes.
    #[error("more than {most} changes", most = MOST_CHANGES)]
    TooLong,
    /// Two changes of the batch have the same key.
    #[error("change {at} is on the key of an earlier change")]
    Duplicate {
        /// The position, counted from 1, of the first change that has the key of an earlier change.
        at: usize,
    },
    /// A change removes a link that the table doesn't have.
    #[error("change {at} removes a link that is not there")]
    Absent {
        /// The position, counted from 1, of the first removal whose link the table doesn't have.
        at: usize,
    },
    /// The table would have more than `MOST_LINKS` links after the batch.
    #[error("more than {most} links", most = MOST_LINKS)]
    Full,
    /// The table would have more than `MOST_ROUTERS` routers after the batch.
    #[error("more than {most} routers", most = MOST_ROUTERS)]
    TooManyRouters,
    /// The table would have more than `MOST_MARKS` routers without transit after the batch.
    #[error("more than {most} routers without transit", most = MOST_MARKS)]
    TooManyMarks,
}
