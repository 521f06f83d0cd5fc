ghost use Rattle.std.specs.Prelude.{◌≡◌, ◌<◌, ◌≤◌, ◌⊎◌, length, All, IfOk, IfErr, vec_len};
ghost use Rattle.std.specs.List.Sorted.{IsStrictlyIncreasing};
ghost use Rattle.cspf_publish.specs.Histories.{BeginsWith};
ghost use Rattle.cspf_work.specs.Served.{AreAnsweredByWorkers, AreAnswersAfter, AreSameAskers, IsFaultOfWorker, IsUnaccounted};

use crate::askers::tell_each;
use crate::strays::first_stray;
use crate::{Answers, Gate, MOST_REQUESTS, ServeError, answer_all};
use cspf_model::Request;
use cspf_publish::{Asker, MOST_ASKERS, Publisher};
use std::alloc::Global;
use std::io::Write;
use std::thread::Threads;

/// First each asker (the object that computes a worker's answers) learns of the published batches.
/// Then requests are answered as by `answer_all`, at the last published version. If an answer has a
/// later version, the call returns the error `Unaccounted`.
///
/// The askers have to be the askers that `open` made for this publisher. All of them are returned
/// in order, also if there is an error, and know the published batches.
pub fn answer_latest<W: Write, G: Gate + Sync, R: Threads + Sync>(
    rt: &R,
    alloc: Global,
    publisher: &mut Publisher<W>,
    askers: Vec<Asker>,
    requests: &[Request],
    gate: &G,
) -> Result<Answers, (ServeError, Vec<Asker>)>
    requires askers { (0 < vec_len askers) × (vec_len askers ≤ MOST_ASKERS) }
    requires source { All (λ a. a.source ≡ publisher.old.source) askers.items }
    requires requests { length requests.now ≤ MOST_REQUESTS }
    ensures same { publisher.new ≡ publisher.old }
    ensures answers { IfOk result (λ all.
        AreAnswersAfter publisher.old.batches requests.now all.list.items) }
    ensures workers { IfOk result (λ all. AreAnsweredByWorkers requests.now
        askers.items all.askers.items all.list.items all.drawn.items) }
    ensures rising { IfOk result (λ all. All (λ v. IsStrictlyIncreasing v.items) all.drawn.items) }
    ensures askers { IfOk result (λ all. AreSameAskers askers.items all.askers.items) }
    ensures told { IfOk result (λ all.
        All (λ a. BeginsWith a.batches publisher.old.batches) all.askers.items) }
    ensures error { IfErr result (λ e.
        IsFaultOfWorker e.0
        ⊎ IsUnaccounted (length requests.now) (length publisher.old.batches) e.0) }
    ensures back { IfErr result (λ e. AreSameAskers askers.items e.1.items) }
    ensures back_told { IfErr result (λ e.
        All (λ a. BeginsWith a.batches publisher.old.batches) e.1.items) }
{
    let mut askers = askers;
    tell_each(publisher, &mut askers);
    let version = publisher.version();
    match answer_all(rt, alloc, askers, requests, gate) {
        Ok(answers) => match first_stray(answers.list.as_slice(), version, version) {
            None => Ok(answers),
            Some(error) => Err((error, answers.askers)),
        },
        Err((error, askers)) => Err((error, askers)),
    }
}
