//! Answers the requests of a run in parts, so that only the answers of one part are in memory.

ghost use Rattle.std.specs.Prelude.{◌≡◌, ℕ, ◌+◌, ◌<◌, ◌≤◌, ◌⊎◌, length, take, drop, All, IfOk, IfErr, OnOk, OnErr, vec_len};
ghost use Rattle.cspf_model.specs.Changes.{database_after};
ghost use Rattle.cspf_publish.specs.declared.limits.TheConstants.{MOST_ASKERS};
ghost use Rattle.cspf_serve.specs.BatchRun.{AreReplies};
ghost use Rattle.cspf_judge.specs.EarlyEnds.{HasBegun, Writes};
ghost use Rattle.cspf_serve.specs.EarlyEnds.{IsErrorOfPart};
ghost use Rattle.cspf_serve.specs.RunFaults.{IsStreamFault, IsAnsweringFault};
ghost use Rattle.cspf_work.specs.declared.limits.TheConstants.{MOST_REQUESTS};

use crate::batch::growing::grow_for;
use crate::streams::replies::write_replies;
use crate::{Answers, Gate, RunError, ServeError, answer_latest};
use cspf_model::Request;
use cspf_publish::{Asker, Publisher};
use std::alloc::Global;
use std::io::Write;
use std::thread::Threads;

/// The most requests in a part. The lines of a part are written before the next part is answered.
const MOST_AT_ONCE: usize = 32_768;

/// The gate for a part of a list of requests. It passes a request's index in the whole list to the
/// gate of the run.
#[derive(Drop)]
struct PartGate<'a, G> {
    gate: &'a G,
    /// The index of the first request of the part in the whole list.
    first: usize,
}

impl<G: Gate> Gate for PartGate<'_, G> {
    fn reached(&self, worker: usize, index: usize) {
        self.gate.reached(worker, self.first.saturating_add(index));
    }

    fn answered(&self, worker: usize, index: usize) {
        self.gate.answered(worker, self.first.saturating_add(index));
    }
}

/// Answers requests at the last published version, part by part. The lines of a part are written
/// before the next part is answered.
pub(super) fn answer_in_parts<J: Write, W: Write, G: Gate + Sync, T: Threads + Sync>(
    rt: &T,
    alloc: Global,
    publisher: &mut Publisher<J>,
    askers: Vec<Asker>,
    requests: &[Request],
    writer: &mut W,
    gate: &G,
) -> Result<(), RunError>
    requires askers { (0 < vec_len askers) × (vec_len askers ≤ MOST_ASKERS) }
    requires source { All (λ a. a.source ≡ publisher.old.source) askers.items }
    requires requests { length requests.now ≤ MOST_REQUESTS }
    ensures text { OnOk result (Writes (W.contents writer.old) (W.contents writer.new)
        (AreReplies (database_after publisher.old.batches) (length publisher.old.batches)
        requests.now)) }
    ensures begun { OnErr result (HasBegun (W.contents writer.old) (W.contents writer.new)
        (λ lines. (count : ℕ) × AreReplies (database_after publisher.old.batches)
        (length publisher.old.batches) (take count requests.now) lines)) }
    ensures error { IfErr result (λ e. IsStreamFault e ⊎ IsAnsweringFault (λ index version.
        (index < length requests.now) × (length publisher.old.batches < version)) e) }
{
    let mut askers = askers;
    grow_for(alloc, requests, &mut askers);
    let mut first = 0;
    while first < requests.len() {
        let end = requests.len().min(first + MOST_AT_ONCE);
        let asked = &requests[..end];
        askers = answer_from(rt, alloc, publisher, askers, asked, first, writer, gate)?;
        first = end;
    }
    Ok(())
}

/// Answers the requests from the index `first` on, writes their lines, and returns the askers,
/// which answer requests.
#[tactic(auto, using(crate::proofs::StreamFaults::judged))]
fn answer_from<J: Write, W: Write, G: Gate + Sync, T: Threads + Sync>(
    rt: &T,
    alloc: Global,
    publisher: &mut Publisher<J>,
    askers: Vec<Asker>,
    requests: &[Request],
    first: usize,
    writer: &mut W,
    gate: &G,
) -> Result<Vec<Asker>, RunError>
    requires askers { (0 < vec_len askers) × (vec_len askers ≤ MOST_ASKERS) }
    requires source { All (λ a. a.source ≡ publisher.old.source) askers.items }
    requires requests { length requests.now ≤ MOST_REQUESTS }
    requires first { first ≤ length requests.now }
    ensures same { publisher.new ≡ publisher.old }
    ensures count { IfOk result (λ back. vec_len back ≡ vec_len askers) }
    ensures source { IfOk result (λ back. All (λ a. a.source ≡ publisher.old.source) back.items) }
    ensures text { OnOk result (Writes (W.contents writer.old) (W.contents writer.new)
        (AreReplies (database_after publisher.old.batches) (length publisher.old.batches)
        (drop first requests.now))) }
    ensures begun { OnErr result (HasBegun (W.contents writer.old) (W.contents writer.new)
        (λ lines. (count : ℕ) × AreReplies (database_after publisher.old.batches)
        (length publisher.old.batches) (take count (drop first requests.now)) lines)) }
    ensures error { IfErr result (λ e. IsStreamFault e ⊎ IsAnsweringFault (λ index version.
        (first ≤ index) × (index < length requests.now)
        × (length publisher.old.batches < version)) e) }
{
    let part = PartGate { gate, first };
    match answer_latest(rt, alloc, publisher, askers, &requests[first..], &part) {
        Ok(Answers { list, askers, .. }) => {
            write_replies(alloc, list.as_slice(), writer)?;
            Ok(askers)
        }
        Err((error, _askers)) => Err(RunError::from(error_of_list(part.first, error))),
    }
}

/// Converts the error of a part to the error of the whole list of requests. In `Unaccounted` the
/// index of a request in the part becomes its index in the whole list. `first` is the index of the
/// first request of the part.
fn error_of_list(first: usize, error: ServeError) -> ServeError
    ensures { IsErrorOfPart first error result }
{
    match error {
        ServeError::Unaccounted { index, version } => ServeError::Unaccounted {
            index: first.saturating_add(index),
            version,
        },
        _ => error,
    }
}
