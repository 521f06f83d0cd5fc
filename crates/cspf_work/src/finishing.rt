//! Ends the work: closes the counter, and collects the answers. In proofs the last seat records the
//! numbers that the workers drew.

ghost use Rattle.std.specs.Prelude.{◌≡◌, ◌⊎◌, List, Some, All, IfOk, IfErr, IsNone};
ghost use Rattle.std.specs.List.Sorted.{IsStrictlyIncreasing};
ghost use Rattle.cspf_publish.specs.AskerStates.{AskerState};
ghost use Rattle.cspf_work.specs.declared.worker.Worker.{Worker};
ghost use Rattle.cspf_work.specs.Served.{AreAnsweredByWorkers, AreSameAskers, IsFaultOfWorker};
ghost use Rattle.cspf_work.specs.Working.{AreResults};

use crate::ServeError;
use crate::collecting::collect;
use crate::worker::Results;
use cspf_jobs::{Counter, LastSeat};
use cspf_model::Request;
use cspf_publish::{Answer, Asker};
use std::alloc::Global;

/// The answers in the order of the requests, and for each worker the indexes of the requests that
/// it answered.
#[derive(Drop)]
pub(crate) struct Collected {
    pub(crate) list: Vec<Answer>,
    pub(crate) drawn: Vec<Vec<usize>>,
}

/// Closes the counter from which the workers drew. Returns the workers' askers (the objects that
/// computed the answers), and the answers collected from the workers.
pub(crate) fn finish(
    alloc: Global,
    counter: Counter,
    last: LastSeat,
    results: Results,
    requests: &[Request],
) -> (Vec<Asker>, Result<Collected, ServeError>)
    requires counter { last.counter ≡ counter }
    requires results { (before : List AskerState) × (workers : List Worker)
        × AreResults counter requests.now before last.drawn results workers }
    ensures askers { (before : List AskerState) (workers : List Worker)
        → AreResults counter requests.now before last.drawn results workers
        → AreSameAskers before result.0.items }
    ensures answers { IfOk result.1 (λ all. (before : List AskerState) (workers : List Worker)
        → AreResults counter requests.now before last.drawn results workers
        → AreAnsweredByWorkers requests.now before result.0.items all.list.items all.drawn.items) }
    ensures rising { IfOk result.1 (λ all. All (λ v. IsStrictlyIncreasing v.items) all.drawn.items) }
    ensures error { IfErr result.1 IsFaultOfWorker }
    // If a worker had a fault, the error is the first such fault. If no worker had a fault, memory
    // was refused.
    ensures fault { IfErr result.1 (λ e. (results.fault ≡ Some e)
        ⊎ (IsNone results.fault × (e ≡ ServeError.Memory))) }
{
    let _word = counter.close(last);
    let Results {
        askers,
        lists,
        fault,
    } = results;
    if let Some(error) = fault {
        return (askers, Err(error));
    }
    match collect(alloc, lists, requests.len()) {
        Ok((list, drawn)) => (askers, Ok(Collected { list, drawn })),
        Err(error) => (askers, Err(error)),
    }
}
