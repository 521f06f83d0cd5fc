//! Runs all workers at once, each in a thread, if threads can be made.

ghost use Rattle.std.specs.Prelude.{◌≡◌, List, length};
ghost use Rattle.cspf_jobs.specs.DrawnNumbers.{CounterId};
ghost use Rattle.cspf_publish.specs.AskerStates.{AskerState};
ghost use Rattle.cspf_work.specs.declared.worker.Worker.{Worker as OneWorker};
ghost use Rattle.cspf_work.specs.Working.{IsIdle, IsWorkerRun, AreReady, AreRun, AreLeft, CanBegin};

use crate::Gate;
use crate::crew::{Crew, dismiss};
use crate::worker::{Results, Worker};
use crate::worker_loop::serve;
use cspf_jobs::LastSeat;
use cspf_model::Request;
use std::alloc::Global;
use std::thread;
use std::thread::Threads;

/// Each worker answers the requests whose indexes it draws from the counter. All workers run at
/// once, each in a thread. If threads can't be made, they run one after the other.
pub(crate) fn run_all<G: Gate + Sync, R: Threads + Sync>(
    rt: &R,
    alloc: Global,
    requests: &[Request],
    gate: &G,
    workers: &mut [Worker<'_>],
)
    requires { (id : CounterId) × (before : List AskerState)
        × AreReady id requests.now before workers.old }
    ensures { (id : CounterId) (before : List AskerState)
        → AreReady id requests.now before workers.old → AreRun id requests.now before workers.new }
{
    let count = workers.len();
    thread::for_each_mut(
        rt,
        workers,
        count,
        &|number, worker: &mut Worker<'_>|
            requires { (worker.now.drawer.counter.requests ≡ length requests.now)
                × IsIdle worker.now.drawer.counter worker.now }
            ensures { IsWorkerRun worker.entry.now.drawer.counter requests.entry.now
                worker.entry.now.asker worker.exit.now }
        { serve(alloc, number, requests, gate, worker) },
    );
}

/// Returns the results of the workers, after they have answered all requests.
pub(crate) fn run_workers<G: Gate + Sync, R: Threads + Sync>(
    rt: &R,
    alloc: Global,
    requests: &[Request],
    gate: &G,
    crew: Crew<'_>,
) -> (Results, LastSeat)
    requires { CanBegin crew.counter.now requests.now crew.workers.items }
    ensures counter { result.1.counter ≡ crew.entry.counter.now }
    ensures results { AreLeft crew.entry.counter.now requests.now crew.entry.workers.items
        result.1.drawn result.0 }
{
    let mut crew = crew;
    run_all(rt, alloc, requests, gate, crew.workers.as_mut_slice());
    dismiss(crew)
}
