//! The loop of one worker: it draws the index of a request from the counter, computes the answer,
//! and keeps the answer.

ghost use Rattle.std.specs.Prelude.{◌≡◌, ◌+◌, ◌<◌, ◌≤◌, ◌++◌, [], ◌∷◌, length, OnOk, IfErr, IfSome, IsNone};
ghost use Rattle.cspf_publish.specs.AskerStates.{AskerState};
ghost use Rattle.cspf_work.specs.Served.{IsFaultOfWorker};
ghost use Rattle.cspf_work.specs.Working.{HasDone, HasDrawnAll, IsIdle, indexes};

use crate::worker::{Reply, Worker};
use crate::{Gate, ServeError};
use cspf_model::Request;
use std::alloc::Global;

/// Lets the worker's asker (the object that computes its answers) answer one request, and keeps the
/// answer.
fn serve_one<G: Gate>(
    alloc: Global,
    number: usize,
    index: usize,
    requests: &[Request],
    gate: &G,
    worker: &mut Worker<'_>,
) -> Result<(), ServeError>
    requires { index < length requests.now }
    ensures done { (before : AskerState) → HasDone requests.now before worker.old
        → HasDone requests.now before worker.new }
    ensures fault { worker.new.fault ≡ worker.old.fault }
    ensures drawer { worker.new.drawer ≡ worker.old.drawer }
    ensures next { OnOk result (indexes worker.new.done.items
        ≡ indexes worker.old.done.items ++ index ∷ []) }
    ensures error { IfErr result IsFaultOfWorker }
    // On `NoEntry` the worker is unchanged. If memory is refused, the worker's asker (which
    // computes its answers) may have learnt of more batches.
    ensures no_entry { IfErr result (λ e. e ≡ ServeError.NoEntry → worker.new ≡ worker.old) }
{
    gate.reached(number, index);
    let answer = worker.asker.ask(alloc, &requests[index])?;
    gate.answered(number, index);
    if worker.done.push(Reply { index, answer }).is_err() {
        return Err(ServeError::Memory);
    }
    Ok(())
}

/// Answers the requests whose indexes the worker draws from the counter. The worker stops when it
/// draws a number that isn't the index of a request, or at its first fault.
pub(crate) fn serve<G: Gate>(
    alloc: Global,
    number: usize,
    requests: &[Request],
    gate: &G,
    worker: &mut Worker<'_>,
)
    requires requests { worker.old.drawer.counter.requests ≡ length requests.now }
    requires idle { IsIdle worker.old.drawer.counter worker.old }
    ensures done { HasDone requests.now worker.old.asker worker.new }
    ensures counter { worker.new.drawer.counter ≡ worker.old.drawer.counter }
    ensures drawn { IsNone worker.new.fault → HasDrawnAll (length requests.now) worker.new }
    ensures error { IfSome worker.new.fault IsFaultOfWorker }
{
    while worker.drawer.left() != 0 {
        let index = worker.drawer.draw();
        if index >= requests.len() as u64 {
            return;
        }
        if let Err(fault) = serve_one(alloc, number, index as usize, requests, gate, worker) {
            worker.fault = Some(fault);
            return;
        }
    }
}
