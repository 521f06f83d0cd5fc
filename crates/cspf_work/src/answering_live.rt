//! Workers answer requests while the calling thread publishes batches.

ghost use Rattle.std.specs.Prelude.{◌⊎◌, ◌<◌, ◌≤◌, ◌≡◌, List, length, All, IfOk, IfErr, vec_len};
ghost use Rattle.std.specs.List.Sorted.{IsStrictlyIncreasing};
ghost use Rattle.cspf_jobs.specs.DrawnNumbers.{CounterId};
ghost use Rattle.cspf_publish.specs.Histories.{BeginsWith};
ghost use Rattle.cspf_publish.specs.AskerStates.{AskerState};
ghost use Rattle.cspf_work.specs.Served.{AreAnsweredByWorkers, AreAnswersWithin, AreSameAskers, IsFaultOfWorker, IsUnaccounted};
ghost use Rattle.cspf_work.specs.Applied.{IsAppliedUpTo, IsAppliedInPart, AreUntouchedOrTold};
ghost use Rattle.cspf_work.specs.declared.worker.Worker.{Worker as OneWorker};
ghost use Rattle.cspf_work.specs.Working.{AreReady, AreRun, AreLeft, CanBegin};

use crate::askers::tell_each;
use crate::crew::{Crew, dismiss, employ};
use crate::finishing::{Collected, finish};
use crate::pool::run_all;
use crate::strays::first_stray;
use crate::worker::{Results, Worker};
use crate::{Gate, Live, MOST_REQUESTS, ServeError};
use cspf_jobs::{Counter, LastSeat};
use cspf_model::{Batch, Request};
use cspf_publish::{ApplyError, Asker, MOST_ASKERS, Publisher};
use std::alloc::Global;
use std::io::Write;
use std::sync::Wait;
use std::thread;
use std::thread::Threads;

/// Applies batches in order, until one is refused or no batch is left. Returns the number of
/// applied batches, and why the next batch was refused, if it was.
fn apply_all<W: Write, R: Wait>(
    rt: &R,
    alloc: Global,
    batches: &[Batch],
    publisher: &mut Publisher<W>,
) -> (u32, Option<ApplyError>)
    ensures { IsAppliedUpTo W.contents publisher.old publisher.new batches.now result.0 result.1 }
{
    let mut applied: u32 = 0;
    for batch in batches {
        if let Err(fault) = publisher.apply(rt, alloc, batch) {
            return (applied, Some(fault));
        }
        applied += 1;
    }
    (applied, None)
}

/// Applies batches in the calling thread while the workers answer requests.
fn apply_and_run<W: Write, G: Gate + Sync, R: Threads + Wait + Sync>(
    rt: &R,
    alloc: Global,
    requests: &[Request],
    gate: &G,
    workers: &mut [Worker<'_>],
    batches: &[Batch],
    publisher: &mut Publisher<W>,
) -> (u32, Option<ApplyError>)
    requires { (id : CounterId) × (before : List AskerState)
        × AreReady id requests.now before workers.old }
    ensures run { (id : CounterId) (before : List AskerState)
        → AreReady id requests.now before workers.old → AreRun id requests.now before workers.new }
    ensures applied { IsAppliedUpTo W.contents publisher.old publisher.new batches.now result.0 result.1 }
{
    let mut answer = ||
        requires { (id : CounterId) × (before : List AskerState)
            × AreReady id requests.now before workers.now }
        ensures { (id : CounterId) (before : List AskerState)
            → AreReady id requests.entry.now before workers.entry.now
            → AreRun id requests.entry.now before workers.exit.now }
    { run_all(rt, alloc, requests, gate, workers) };
    let mut apply = || -> (u32, Option<ApplyError>)
        ensures { IsAppliedUpTo W.contents publisher.entry.now publisher.exit.now batches.entry.now
            result.0 result.1 }
    { apply_all(rt, alloc, batches, publisher) };
    thread::join_mut(rt, &mut answer, &mut apply).1
}

/// Returns the results of the workers, after they have answered all requests and the calling thread
/// has applied the batches.
fn run_beside<W: Write, G: Gate + Sync, R: Threads + Wait + Sync>(
    rt: &R,
    alloc: Global,
    batches: &[Batch],
    publisher: &mut Publisher<W>,
    requests: &[Request],
    gate: &G,
    crew: Crew<'_>,
) -> (Results, LastSeat, u32, Option<ApplyError>)
    requires { CanBegin crew.counter.now requests.now crew.workers.items }
    ensures counter { result.1.counter ≡ crew.entry.counter.now }
    ensures results { AreLeft crew.entry.counter.now requests.now crew.entry.workers.items
        result.1.drawn result.0 }
    ensures applied { IsAppliedUpTo W.contents publisher.old publisher.new batches.now
        result.2 result.3 }
{
    let mut crew = crew;
    let workers = crew.workers.as_mut_slice();
    let (applied, fault) = apply_and_run(rt, alloc, requests, gate, workers, batches, publisher);
    let (results, last) = dismiss(crew);
    (results, last, applied, fault)
}

/// The part of `run_live` that borrows the publisher.
fn run_lent<W: Write, G: Gate + Sync, R: Threads + Wait + Sync>(
    rt: &R,
    alloc: Global,
    publisher: &mut Publisher<W>,
    askers: Vec<Asker>,
    batches: &[Batch],
    requests: &[Request],
    gate: &G,
) -> (
    Vec<Asker>,
    Result<(Collected, u32, Option<ApplyError>), ServeError>,
)
    requires askers { (0 < vec_len askers) × (vec_len askers ≤ MOST_ASKERS) }
    requires source { All (λ a. a.source ≡ publisher.old.source) askers.items }
    requires requests { length requests.now ≤ MOST_REQUESTS }
    ensures askers { AreSameAskers askers.items result.0.items }
    ensures answers { IfOk result.1 (λ all. AreAnsweredByWorkers requests.now
        askers.items result.0.items all.0.list.items all.0.drawn.items) }
    ensures rising { IfOk result.1 (λ all.
        All (λ v. IsStrictlyIncreasing v.items) all.0.drawn.items) }
    ensures published { IfOk result.1 (λ all.
        AreAnswersWithin publisher.new.batches requests.now all.0.list.items) }
    ensures told { IfOk result.1 (λ all.
        All (λ a. BeginsWith a.batches publisher.new.batches) result.0.items) }
    ensures applied { IfOk result.1 (λ all.
        IsAppliedUpTo W.contents publisher.old publisher.new batches.now all.1 all.2) }
    ensures part { IfErr result.1 (λ e. IsAppliedInPart W.contents
        publisher.old publisher.new batches.now) }
    ensures error { IfErr result.1 (λ e.
        IsFaultOfWorker e
        ⊎ IsUnaccounted (length requests.now) (length publisher.new.batches) e) }
    ensures back_told { IfErr result.1 (λ e.
        AreUntouchedOrTold publisher.old publisher.new askers.items result.0.items) }
{
    let Ok((counter, first)) = Counter::open(alloc, requests.len() as u64) else {
        return (askers, Err(ServeError::Memory));
    };
    let crew = match employ(alloc, &counter, first, askers) {
        Ok(crew) => crew,
        Err(askers) => return (askers, Err(ServeError::Memory)),
    };
    let (results, last, applied, fault) = run_beside(
        rt, alloc, batches, publisher, requests, gate, crew,
    );
    let (mut askers, collected) = finish(alloc, counter, last, results, requests);
    tell_each(publisher, &mut askers);
    match collected {
        Ok(collected) => match first_stray(collected.list.as_slice(), 0, publisher.version()) {
            None => (askers, Ok((collected, applied, fault))),
            Some(error) => (askers, Err(error)),
        },
        Err(error) => (askers, Err(error)),
    }
}

/// Answers requests as `answer_all` does. Meanwhile the calling thread applies batches in order,
/// until one is refused or no batch is left. Afterwards each asker (the object that computes a
/// worker's answers) learns of the published batches. If an answer has a version that isn't
/// published, the call returns the error `Unaccounted`.
///
/// The askers have to be the askers that `open` made for this publisher. If there is an error, the
/// publisher and all askers are returned, too. Then either nothing has happened, or the batches
/// were applied until one was refused or no batch was left. In the second case a fault of the
/// journal may have stopped the publisher, and each asker has learnt of the published batches.
pub fn run_live<W: Write, G: Gate + Sync, R: Threads + Wait + Sync>(
    rt: &R,
    alloc: Global,
    publisher: Publisher<W>,
    askers: Vec<Asker>,
    batches: &[Batch],
    requests: &[Request],
    gate: &G,
) -> Result<Live<W>, (ServeError, Publisher<W>, Vec<Asker>)>
    requires askers { (0 < vec_len askers) × (vec_len askers ≤ MOST_ASKERS) }
    requires source { All (λ a. a.source ≡ publisher.source) askers.items }
    requires requests { length requests.now ≤ MOST_REQUESTS }
    ensures answers { IfOk result (λ live. AreAnsweredByWorkers requests.now
        askers.items live.askers.items live.list.items live.drawn.items) }
    ensures rising { IfOk result (λ live. All (λ v. IsStrictlyIncreasing v.items) live.drawn.items) }
    ensures published { IfOk result (λ live.
        AreAnswersWithin live.publisher.batches requests.now live.list.items) }
    ensures askers { IfOk result (λ live. AreSameAskers askers.items live.askers.items) }
    ensures told { IfOk result (λ live.
        All (λ a. BeginsWith a.batches live.publisher.batches) live.askers.items) }
    ensures applied { IfOk result (λ live. IsAppliedUpTo W.contents
        publisher live.publisher batches.now live.applied live.fault) }
    ensures error { IfErr result (λ e.
        IsFaultOfWorker e.0
        ⊎ IsUnaccounted (length requests.now) (length e.1.batches) e.0) }
    ensures part { IfErr result (λ e. IsAppliedInPart W.contents publisher e.1 batches.now) }
    ensures back { IfErr result (λ e. AreSameAskers askers.items e.2.items) }
    ensures back_told { IfErr result (λ e.
        AreUntouchedOrTold publisher e.1 askers.items e.2.items) }
{
    let mut publisher = publisher;
    let (askers, ran) = run_lent(rt, alloc, &mut publisher, askers, batches, requests, gate);
    match ran {
        Ok((Collected { list, drawn }, applied, fault)) => Ok(Live {
            publisher,
            list,
            drawn,
            askers,
            applied,
            fault,
        }),
        Err(error) => Err((error, publisher, askers)),
    }
}
