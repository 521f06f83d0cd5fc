ghost use Rattle.std.specs.Prelude.{◌<◌, ◌≤◌, length, All, IfOk, IfErr, vec_len};
ghost use Rattle.std.specs.List.Sorted.{IsStrictlyIncreasing};
ghost use Rattle.cspf_work.specs.Served.{AreAnsweredByWorkers, AreSameAskers, IsFaultOfWorker};

use crate::crew::employ;
use crate::finishing::{Collected, finish};
use crate::pool::run_workers;
use crate::{Answers, Gate, MOST_REQUESTS, ServeError};
use cspf_jobs::Counter;
use cspf_model::Request;
use cspf_publish::{Asker, MOST_ASKERS};
use std::alloc::Global;
use std::thread::Threads;

/// Answers requests by several workers. Each worker has an asker, which computes its answers. A
/// worker draws the index of a request from a shared counter and answers the request, until no
/// index is left. Each index is drawn once, and the indexes that a worker draws are increasing. All
/// workers run at once, each in its own thread. If no thread can be made, they run one after the
/// other.
///
/// All askers are returned in order, also if there is an error. Each asker knows at least the
/// batches that it knew before. If several workers have faults, the fault of the first of these
/// workers is returned.
pub fn answer_all<G: Gate + Sync, R: Threads + Sync>(
    rt: &R,
    alloc: Global,
    askers: Vec<Asker>,
    requests: &[Request],
    gate: &G,
) -> Result<Answers, (ServeError, Vec<Asker>)>
    requires askers { (0 < vec_len askers) × (vec_len askers ≤ MOST_ASKERS) }
    requires requests { length requests.now ≤ MOST_REQUESTS }
    ensures answers { IfOk result (λ all. AreAnsweredByWorkers requests.now
        askers.items all.askers.items all.list.items all.drawn.items) }
    ensures rising { IfOk result (λ all. All (λ v. IsStrictlyIncreasing v.items) all.drawn.items) }
    ensures askers { IfOk result (λ all. AreSameAskers askers.items all.askers.items) }
    // Each request's index is drawn from the counter exactly once, by one worker. So each request
    // has exactly one answer.
    ensures error { IfErr result (λ e. IsFaultOfWorker e.0) }
    ensures back { IfErr result (λ e. AreSameAskers askers.items e.1.items) }
{
    let Ok((counter, first)) = Counter::open(alloc, requests.len() as u64) else {
        return Err((ServeError::Memory, askers));
    };
    let crew = match employ(alloc, &counter, first, askers) {
        Ok(crew) => crew,
        Err(askers) => return Err((ServeError::Memory, askers)),
    };
    let (results, last) = run_workers(rt, alloc, requests, gate, crew);
    let (askers, collected) = finish(alloc, counter, last, results, requests);
    match collected {
        Ok(Collected { list, drawn }) => Ok(Answers {
            list,
            drawn,
            askers,
        }),
        Err(error) => Err((error, askers)),
    }
}
