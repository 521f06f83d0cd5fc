//! `Go` shows the number of jobs that have a thread. No work begins without a `Go`. It is made from
//! the count of threads.

ghost use Rattle.std.specs.Prelude.{◌≡◌, ◌<◌, Ok, Err, IsOk, MatchResult};
ghost use Rattle.std.specs.Result.{ForOk, ForErr};

use crate::crew::{Came, Doer, Given};
use crate::word::NoThread;
use std::marker::{Brand, Model, PhantomData};
use std::snapshot::Snapshot;
use std::thread::{Promise, PromisedHandle, SpawnError, Threads};

/// A type that represents the number of jobs of a run. Only proofs use it.
pub(crate) trait JobCount {
    ghost use Rattle.std.specs.Prelude.{ℕ};

    ghost jobs: { ℕ };
}

impl JobCount for Brand {
    ghost jobs = { 0 };
}

/// Shows the number of jobs that have a thread. In contracts its value is this number.
#[derive(Drop)]
pub struct Go {
    threads: usize,
}

impl Model for Go {
    ghost use Rattle.std.specs.Prelude.{ℕ};

    ghost Value = { ℕ };

    ghost view = { λ g. g.threads };
}

/// Shows that each job of the run has a thread.
#[derive(Drop)]
pub(crate) struct GoForAll<N: JobCount> {
    go: Go,
    of: PhantomData<N>,
    ghost all: { go ≡ N.jobs },
}

impl<N: JobCount> GoForAll<N> {
    /// Returns the `Go` that is passed to the workers. It shows the number of jobs that have a
    /// thread.
    pub(crate) fn go(&self) -> &Go
        ensures { result.now ≡ N.jobs }
    {
        &self.go
    }
}

/// The thread of a job, or the closure of a job that was refused a thread.
pub(crate) struct JobThread<T, P: Promise<T>, F> {
    thread: Result<PromisedHandle<T, P>, SpawnError<F>>,
}

impl<T, P: Promise<T>, F: FnOnce() -> T> JobThread<T, P, F> {
    /// Joins the thread, or calls the closure if there is no thread.
    pub(crate) fn join<R: Threads>(self, rt: &R, promise: Snapshot<P>) -> T
        requires promise { ForOk self.thread (λ h. h.promise ≡ promise.value) }
        requires runs { ForErr self.thread (λ e. F.pre e.value) }
        requires keeps { ForErr self.thread (λ e. (r : T) → F.post e.value r → P.kept_by promise.value r) }
        ensures { P.kept_by promise.value result }
    {
        let JobThread { thread } = self;
        match thread {
            Ok(thread) => thread.join(rt),
            Err(refused) => (refused.value)(),
        }
    }
}

/// The number of jobs that have a thread, or the first refusal of a thread.
#[derive(Drop)]
pub(crate) struct ThreadCount {
    made: Result<usize, NoThread>,
}

impl ThreadCount {
    ghost use Rattle.cspf_jobs.specs.Jobs.{with_thread, without_thread};

    /// A count of no threads, without a refusal.
    pub(crate) fn new() -> ThreadCount
        ensures { result.made ≡ Ok 0 }
    {
        ThreadCount { made: Ok(0) }
    }

    /// Counts the thread of the job with the number `job`, or notes that this job was refused a
    /// thread. The call takes ownership of the thread. So no thread is counted twice.
    pub(crate) fn add<'a, N: JobCount, J, O, W: Doer<J, Output = O>, F>(
        &mut self,
        job: usize,
        thread: Result<PromisedHandle<Came<'a, N, J, O>, Given<'a, N, W, J>>, SpawnError<F>>,
    ) -> JobThread<Came<'a, N, J, O>, Given<'a, N, W, J>, F>
        requires { ForOk self.old.made (λ n. n < usize.MAX) }
        ensures thread { result.thread ≡ thread.entry }
        ensures made { MatchResult thread.entry (λ _. self.new.made ≡ with_thread self.old.made)
            (λ _. self.new.made ≡ without_thread job self.old.made) }
    {
        self.made = match (&self.made, &thread) {
            (Ok(made), Ok(_)) => Ok(made + 1),
            (Ok(_), Err(_)) => Err(NoThread { job }),
            (Err(first), _) => Err(*first),
        };
        JobThread { thread }
    }

    /// Returns the decision whether the jobs begin. They begin if each job has a thread. Otherwise
    /// the decision is the first refusal of a thread.
    pub(crate) fn word<N: JobCount>(&self) -> Result<GoForAll<N>, NoThread>
        requires { ForOk self.now.made (λ n. n ≡ N.jobs) }
        ensures { MatchResult result (λ _. IsOk self.now.made) (λ first. self.now.made ≡ Err first) }
    {
        match self.made {
            Ok(threads) => Ok(GoForAll {
                go: Go { threads },
                of: PhantomData,
            }),
            Err(first) => Err(first),
        }
    }
}
