//! Makes the threads of a run, decides whether the jobs begin, and joins the threads.

ghost use Rattle.std.specs.Prelude.{◌≡◌, ℕ, ◌+◌, ◌<◌, ◌≤◌, [], Err, IfOk, IfErr, IsOkAnd, MatchResult, vec_len, vec_capacity};
ghost use Rattle.std.specs.Result.{ForOk};
ghost use Rattle.std.specs.Vec.{vec_ptr};
ghost use Rattle.std.specs.List.{AllZip};
ghost use Rattle.cspf_jobs.specs.Jobs.{AreDone, HasCome, HaveEnded, HaveRun, IsPushed};

use crate::go::{Go, JobCount, ThreadCount};
use crate::word::{NoThread, Said, StartWord, heard};
use std::marker::Brand;
use std::snapshot::Snapshot;
use std::sync::{OnceLock, Wait};
use std::thread;
use std::thread::{Promise, Scope, Threads};

/// A worker, which does one job in its own thread.
pub trait Doer<J> {
    /// The output of a job.
    type Output;

    /// The precondition of `work`, on the number of jobs that have a thread, the worker and the
    /// job.
    ghost ready: { ℕ → Self → J → Type 0 };

    /// The postcondition of `work`, on the worker, the job and the output.
    ghost done: { Self → J → Self.Output → Type 0 };

    /// Does the job. `go` shows the number of jobs that have a thread.
    fn work(self, go: &Go, job: J) -> Self::Output
        requires { ready go.now self job }
        ensures { done self job result };
}

/// The calling thread's own work. It does this work while the workers do their jobs.
pub trait Meanwhile {
    /// The output of this work.
    type Output;

    /// The precondition of `run`, on the number of jobs that have a thread, and on this value.
    ghost ready: { ℕ → Self → Type 0 };

    /// The postcondition of `run`, on this value before the call, the output, and this value after
    /// the call.
    ghost ran: { Self → Self.Output → Self → Type 0 };

    /// Does the work. `go` shows the number of jobs that have a thread.
    fn run(&mut self, go: &Go) -> Self::Output
        requires { ready go.now self.old }
        ensures { ran self.old result self.new };
}

/// The work of the calling thread as a value that a closure can own.
#[derive(Drop)]
struct Lent<'a, M> {
    own: &'a mut M,
}

impl<'a, P, M: Meanwhile<Output = P>> Doer<()> for Lent<'a, M> {
    type Output = (&'a mut M, P);

    ghost ready = { λ n l _. M.Meanwhile.ready n l.own.now };

    ghost done = { λ l _ r. (r.0.ghost_name ≡ l.own.ghost_name) × M.Meanwhile.ran l.own.now r.1 r.0.now };

    fn work(self, go: &Go, _job: ()) -> (&'a mut M, P) {
        let Lent { own } = self;
        let ended = own.run(go);
        (own, ended)
    }
}

/// The result of a thread: the decision whether the jobs begin, as the thread has read it, and the
/// output of its job. If the job wasn't begun, the job is returned in place of the output.
#[derive(Drop)]
pub(crate) struct Came<'a, N: JobCount, J, O> {
    said: Said<'a, N>,
    ended: Result<O, J>,
}

/// The arguments of a thread: the once-lock that gets the decision whether the jobs begin, the
/// worker and the job.
#[derive(Drop)]
pub(crate) struct Given<'a, N: JobCount, W, J> {
    word: &'a StartWord<N>,
    worker: Snapshot<W>,
    job: Snapshot<J>,
}

impl<'a, N: JobCount, J, O, W: Doer<J, Output = O>> Promise<Came<'a, N, J, O>>
    for Given<'a, N, W, J> {
    ghost kept_by = { λ g c. HasCome W.Doer.done g.word.now.id g.worker.value g.job.value c };
}

/// Waits until it is decided whether the jobs begin. If they begin, the worker does the job.
/// Otherwise the job is returned.
fn wait_and_work<'a, N: JobCount, J, O, W: Doer<J, Output = O> + Drop, R: Wait>(
    rt: &R,
    word: &'a StartWord<N>,
    worker: W,
    job: J,
) -> Came<'a, N, J, O>
    requires { W.Doer.ready N.jobs worker job }
    ensures { HasCome W.Doer.done word.now.id worker job result }
{
    let said = heard(rt, word);
    let ended = match word.value(&said) {
        Ok(all) => Ok(worker.work(all.go(), job)),
        Err(_) => Err(job),
    };
    Came { said, ended }
}

/// Decides whether the jobs begin. If they begin, does the work of the calling thread.
fn finish<'a, N: JobCount, P, M: Doer<(), Output = P> + Drop, R: Wait>(
    rt: &R,
    word: &'a StartWord<N>,
    count: ThreadCount,
    last: M,
) -> (Said<'a, N>, Result<P, M>)
    requires all { ForOk count.made (λ n. n ≡ N.jobs) }
    requires ready { M.Doer.ready N.jobs last tt }
    ensures word { result.0.of ≡ word.now.id }
    ensures ended { MatchResult result.0.value (λ _. IsOkAnd result.1 (M.Doer.done last tt)) (λ _. result.1 ≡ Err last) }
{
    let decided = count.word();
    let said = word.init(rt, || decided);
    let ended = match word.value(&said) {
        Ok(all) => Ok(last.work(all.go(), ())),
        Err(_) => Err(last),
    };
    (said, ended)
}

/// Makes a thread for each job, starting with the last job, and counts the threads. Then it decides
/// whether the jobs begin. If they begin, it does the work of the calling thread. At the end it
/// joins the threads.
fn call_all<
    's,
    'w: 's,
    E: 's,
    N: JobCount + Send + Sync + Drop + 's,
    J: Send + Drop + 's,
    O: Send + Drop + 's,
    W: Doer<J, Output = O> + Send + Drop + 's,
    P,
    M: Doer<(), Output = P> + Drop,
    R: Threads + Wait + Sync,
>(
    rt: &'s R,
    scope: &Scope<'s, E>,
    word: &'w StartWord<N>,
    count: ThreadCount,
    workers: &mut Vec<W>,
    jobs: &mut Vec<J>,
    outputs: &mut Vec<O>,
    last: M,
) -> (Said<'w, N>, Result<P, M>)
    requires ready { AllZip (W.Doer.ready N.jobs) workers.old.items jobs.old.items × M.Doer.ready N.jobs last tt }
    requires count { ForOk count.made (λ n. n + vec_len jobs.old ≡ N.jobs) }
    requires fits { N.jobs ≤ usize.MAX }
    requires none { outputs.old.items ≡ [] }
    requires room { vec_len jobs.old ≤ vec_capacity outputs.old }
    ensures word { result.0.of ≡ word.now.id }
    ensures capacity { vec_capacity outputs.new ≡ vec_capacity outputs.old }
    ensures gone { HaveEnded W.Doer.done M.Doer.done workers.old.items jobs.old outputs.new.items last jobs.new result.0.value result.1 }
{
    if jobs.is_empty() {
        return finish(rt, word, count, last);
    }
    // The number of the last job, counted from 1.
    let number = jobs.len();
    let job = jobs.take_last();
    let worker = workers.take_last();
    let given = Given {
        word,
        worker: Snapshot::of(&worker),
        job: Snapshot::of(&job),
    };
    let promise = Snapshot::of(&given);
    let wait = move || -> Came<'_, N, J, O>
        requires { W.Doer.ready N.jobs worker job }
        ensures { HasCome W.Doer.done word.entry.now.id worker job result }
    { wait_and_work(rt, word, worker, job) };
    let mut count = count;
    let thread = count.add(number, scope.spawn_with(given, wait));
    let (said, ended) = call_all(rt, scope, word, count, workers, jobs, outputs, last);
    let came = thread.join(rt, promise);
    said.agrees(&came.said);
    keep(came.ended, jobs, outputs);
    (said, ended)
}

/// Appends the output of a job to `outputs`. If the job wasn't begun, appends the job to `jobs`
/// instead.
fn keep<J, O>(ended: Result<O, J>, jobs: &mut Vec<J>, outputs: &mut Vec<O>)
    requires { MatchResult ended (λ _. vec_len outputs.old < vec_capacity outputs.old) (λ _. vec_len jobs.old < vec_capacity jobs.old) }
    ensures jobs { MatchResult ended (λ _. jobs.new ≡ jobs.old) (IsPushed jobs.old jobs.new) }
    ensures outputs { MatchResult ended (IsPushed outputs.old outputs.new) (λ _. outputs.new ≡ outputs.old) }
{
    match ended {
        Ok(output) => outputs.push_reserved(output),
        Err(job) => jobs.push_reserved(job),
    }
}

/// Returns the error with the number of the job that was refused a thread, as the decision `said`
/// names it. The number is from 1 to `count`, the number of jobs.
fn refusal<'a, N: JobCount>(word: &'a StartWord<N>, said: &Said<'a, N>, count: usize) -> NoThread
    requires { (said.now.of ≡ word.now.id) × (0 < count) }
    ensures { (0 < result.job) × (result.job ≤ count) }
{
    let job = match word.value(said) {
        Ok(_) => 1,
        Err(refused) => refused.job,
    };
    NoThread {
        job: job.clamp(1, count),
    }
}

/// As `run_all`, but the work of the calling thread is passed as a value.
fn run_with<
    N: JobCount + Send + Sync + Drop,
    J: Send + Drop,
    O: Send + Drop,
    W: Doer<J, Output = O> + Send + Drop,
    P,
    M: Doer<(), Output = P> + Drop,
    R: Threads + Wait + Sync,
>(
    rt: &R,
    workers: Vec<W>,
    jobs: Vec<J>,
    room: Vec<O>,
    last: M,
) -> Result<(Vec<O>, P), (NoThread, Vec<J>, M)>
    requires jobs { (vec_len jobs ≡ N.jobs) × (0 < N.jobs) }
    requires ready { AllZip (W.Doer.ready N.jobs) workers.items jobs.items × M.Doer.ready N.jobs last tt }
    requires room { (room.items ≡ []) × (vec_len jobs ≤ vec_capacity room) }
    ensures { HaveRun W.Doer.done M.Doer.done workers.items jobs last result }
{
    let word: StartWord<N> = OnceLock::new();
    run_under(rt, &word, workers, jobs, room, last)
}

/// As `run_with`, but the caller passes the once-lock `word`, which gets the decision whether the
/// jobs begin.
fn run_under<
    'w,
    N: JobCount + Send + Sync + Drop,
    J: Send + Drop,
    O: Send + Drop,
    W: Doer<J, Output = O> + Send + Drop,
    P,
    M: Doer<(), Output = P> + Drop,
    R: Threads + Wait + Sync,
>(
    rt: &R,
    word: &'w StartWord<N>,
    workers: Vec<W>,
    jobs: Vec<J>,
    room: Vec<O>,
    last: M,
) -> Result<(Vec<O>, P), (NoThread, Vec<J>, M)>
    requires jobs { (vec_len jobs ≡ N.jobs) × (0 < N.jobs) }
    requires ready { AllZip (W.Doer.ready N.jobs) workers.items jobs.items × M.Doer.ready N.jobs last tt }
    requires room { (room.items ≡ []) × (vec_len jobs ≤ vec_capacity room) }
    ensures { HaveRun W.Doer.done M.Doer.done workers.items jobs last result }
{
    thread::scope(
        thread::scope_env(),
        rt,
        move |scope| -> Result<(Vec<O>, P), (NoThread, Vec<J>, M)>
            requires jobs { (vec_len jobs ≡ N.jobs) × (0 < N.jobs) }
            requires ready { AllZip (W.Doer.ready N.jobs) workers.items jobs.items × M.Doer.ready N.jobs last tt }
            requires room { (room.items ≡ []) × (vec_len jobs ≤ vec_capacity room) }
            ensures { HaveRun W.Doer.done M.Doer.done workers.items jobs last result }
        {
            let job_count = jobs.len();
            let (mut workers, mut jobs, mut outputs) = (workers, jobs, room);
            let (said, ended) = call_all(
                rt,
                scope,
                word,
                ThreadCount::new(),
                &mut workers,
                &mut jobs,
                &mut outputs,
                last,
            );
            match ended {
                Ok(ended) => Ok((outputs, ended)),
                Err(last) => Err((refusal(word, &said, job_count), jobs, last)),
            }
        },
    )
}

/// Does each job in its own thread, by the worker at the same index in `workers`. Meanwhile the
/// calling thread does its own work. No job and no work of the calling thread begins before all
/// jobs have a thread. Each worker, and the work of the calling thread, gets a `Go`. It shows that
/// each job has a thread. The outputs are put into `room`.
///
/// If the system refuses a thread, no job begins, and the calling thread doesn't do its own work.
/// All threads end, and the jobs are returned.
pub fn run_all<
    J: Send + Drop,
    O: Send + Drop,
    W: Doer<J, Output = O> + Send + Drop,
    P,
    M: Meanwhile<Output = P>,
    R: Threads + Wait + Sync,
>(
    rt: &R,
    workers: Vec<W>,
    jobs: Vec<J>,
    room: Vec<O>,
    own: &mut M,
) -> Result<(Vec<O>, P), (NoThread, Vec<J>)>
    requires ready { AllZip (W.Doer.ready (vec_len jobs)) workers.items jobs.items × M.Meanwhile.ready (vec_len jobs) own.old }
    requires some { 0 < vec_len jobs }
    requires room { (room.items ≡ []) × (vec_len jobs ≤ vec_capacity room) }
    ensures done { IfOk result (λ r. AreDone W.Doer.done workers.items jobs.items r.0.items × M.Meanwhile.ran own.old r.1 own.new) }
    ensures number { IfErr result (λ e. (0 < e.0.job) × (e.0.job ≤ vec_len jobs)) }
    ensures back { IfErr result (λ e. (e.1 ≡ jobs) × (own.new ≡ own.old)) }
{
    match run_with::<Brand, _, _, _, _, _, _>(rt, workers, jobs, room, Lent { own }) {
        Ok((outputs, (own, ended))) => {
            take_back(own);
            Ok((outputs, ended))
        }
        Err((refused, jobs, Lent { own })) => {
            take_back(own);
            Err((refused, jobs))
        }
    }
}

/// Does nothing. This use of the reference makes the borrow checker tie the reference to the value
/// that was lent.
fn take_back<M>(own: &mut M)
    ensures { own.new ≡ own.old }
{}
