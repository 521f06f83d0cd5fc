//! The decision whether the jobs begin. All threads wait for it.

ghost use Rattle.std.specs.Prelude.{◌≡◌};

use crate::go::{GoForAll, JobCount};
use std::sync::{OnceLock, OnceToken, Wait};

/// The error that a job was refused a thread.
#[derive(Clone, Copy, Debug, Drop, thiserror::Error)]
#[error("no thread for job {job}")]
pub struct NoThread {
    /// The number of the job, counted from 1.
    pub job: usize,
}

/// The decision whether the jobs begin. It is set once.
pub(crate) type StartWord<N> = OnceLock<Result<GoForAll<N>, NoThread>>;

/// A value that shows that the decision is made, and whether the jobs begin.
pub(crate) type Said<'a, N> = OnceToken<'a, Result<GoForAll<N>, NoThread>>;

/// Waits until it is decided whether the jobs begin.
pub(crate) fn heard<'a, N: JobCount, R: Wait>(rt: &R, word: &'a StartWord<N>) -> Said<'a, N>
    ensures { result.of ≡ word.now.id }
{
    // The loop returns in its first iteration.
    for _ in rt.forever() {
        word.wait(rt);
        if let Some(said) = word.witness() {
            return said;
        }
    }
    unreachable!()
}
