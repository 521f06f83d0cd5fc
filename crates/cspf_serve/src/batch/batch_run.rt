//! The run of `batch`: reads a journal and requests, and writes the lines that answer both.

ghost use Rattle.std.specs.Prelude.{◌≡◌, ℕ, ◌<◌, ◌⊎◌, ◌≤◌, ◌++◌, List, [], length, All, Ok, IfOk, IfErr, IfSome, OnOk, OnErr, vec_len, false};
ghost use Rattle.std.specs.Io.KnownBytes.{Appends};
ghost use Rattle.cspf_model.specs.Numbered.{NumberedChanges};
ghost use Rattle.cspf_rows.specs.Records.{rows_of};
ghost use Rattle.cspf_solve.specs.declared.summary.Summary.{Summary as Counts};
ghost use Rattle.cspf_solve.specs.Script.{IsSolveRun};
ghost use Rattle.cspf_judge.specs.EarlyEnds.{HasBegun, IfRefused, Writes};
ghost use Rattle.cspf_judge.specs.Inputs.{AreBatchesOf, AreRequestsOf};
ghost use Rattle.cspf_serve.specs.BatchRun.{HasBegunBatch, IsBatchRun};
ghost use Rattle.cspf_serve.specs.BatchLaws.{IsCleanJournal};
ghost use Rattle.cspf_serve.specs.EarlyEnds.{AreStreamsRefused};
ghost use Rattle.cspf_serve.specs.PublishedBatches.{ArePublishedOrRefused, IsAcceptedInPart, IsAcceptedOrUnfit};
ghost use Rattle.cspf_serve.specs.RunFaults.{IsStreamFault, IsAnsweringFault, IsBatchFault};
ghost use Rattle.cspf_publish.specs.declared.limits.TheConstants.{MOST_ASKERS};
ghost use Rattle.cspf_rows.specs.declared.limits.TheConstants.{MOST_ROWS};
ghost use Rattle.cspf_work.specs.declared.limits.TheConstants.{MOST_REQUESTS};

use crate::batch::answering::answer_in_parts;
use crate::batch::laws::lines_of_a_script;
use crate::batch::publishing::publish_journal;
use crate::batch::versions::write_versions;
use crate::streams::opening::open_for;
use crate::streams::refusing::refuse;
use crate::{Gate, RunError, RunOptions};
use cspf_judge::{EarlyEnd, JudgeLine, put_line, requests_of};
use cspf_model::Request;
use cspf_publish::{Asker, Publisher};
use std::alloc::Global;
use std::io;
use std::io::{Read, Write};
use std::sync::Wait;
use std::thread::Threads;

/// The inputs of a run.
#[derive(Drop)]
struct Streams<R, Q> {
    journal: R,
    requests: Q,
    /// Whether rows after the journal's batches are skipped. If false, such rows are refused.
    accept_torn: bool,
}

/// Publishes the batches of a journal, one after the other. Then `workers` workers answer the
/// requests of a stream at the last version: `IsBatchRun`. The workers keep as many trees of lower
/// bounds as the askers of `open`. Only one batch at a time is in memory. Both streams are read
/// before the first line is written. The status is 2 if anything was refused, and 0 otherwise. If
/// an error is returned, the writer has a prefix of the lines of a run without an error, perhaps
/// none of them: `IsBatchRunInPart`. The writer isn't flushed.
pub fn run_batch<
    R: Read + Drop,
    Q: Read + Drop,
    W: Write,
    G: Gate + Sync,
    T: Threads + Wait + Sync,
>(
    rt: &T,
    alloc: Global,
    journal: R,
    requests: Q,
    writer: &mut W,
    workers: usize,
    accept_torn: bool,
    gate: &G,
) -> Result<u8, RunError>
    requires workers { (0 < workers) × (workers ≤ MOST_ASKERS) }
    ensures whole { IfOk result (λ status. IfSome (R.remaining journal) (λ kept.
        IfSome (Q.remaining requests) (λ asked. (lines : List ℕ)
        × IsBatchRun accept_torn (rows_of kept) (rows_of asked) lines status
        × Appends (W.contents writer.old) (W.contents writer.new) lines))) }
    ensures stopped { OnErr result (HasBegunBatch accept_torn (R.remaining journal)
        (Q.remaining requests) (W.contents writer.old) (W.contents writer.new)) }
    // If the status is 0, the lines are those of a run over one stream, which has the rows of the
    // journal and then those of the requests.
    ensures script { result ≡ Ok 0 → IfSome (R.remaining journal) (λ kept.
        IfSome (Q.remaining requests) (λ asked. IsCleanJournal (rows_of kept)
        → length (rows_of kept ++ rows_of asked) ≤ MOST_ROWS → (lines : List ℕ) × (counts : Counts)
        × IsSolveRun (rows_of kept ++ rows_of asked) lines counts
        × Appends (W.contents writer.old) (W.contents writer.new) lines)) }
    ensures error { IfErr result
        (IsBatchFault accept_torn (R.remaining journal) (Q.remaining requests)) }
{
    let options = RunOptions::new();
    run_batch_with(
        rt,
        alloc,
        journal,
        requests,
        writer,
        workers,
        accept_torn,
        gate,
        options,
    )
}

/// As `run_batch`, but the options limit how many trees of lower bounds all workers keep together.
pub fn run_batch_with<
    R: Read + Drop,
    Q: Read + Drop,
    W: Write,
    G: Gate + Sync,
    T: Threads + Wait + Sync,
>(
    rt: &T,
    alloc: Global,
    journal: R,
    requests: Q,
    writer: &mut W,
    workers: usize,
    accept_torn: bool,
    gate: &G,
    options: RunOptions,
) -> Result<u8, RunError>
    requires workers { (0 < workers) × (workers ≤ MOST_ASKERS) }
    ensures whole { IfOk result (λ status. IfSome (R.remaining journal) (λ kept.
        IfSome (Q.remaining requests) (λ asked. (lines : List ℕ)
        × IsBatchRun accept_torn (rows_of kept) (rows_of asked) lines status
        × Appends (W.contents writer.old) (W.contents writer.new) lines))) }
    ensures stopped { OnErr result (HasBegunBatch accept_torn (R.remaining journal)
        (Q.remaining requests) (W.contents writer.old) (W.contents writer.new)) }
    // If the status is 0, the lines are those of a run over one stream, which has the rows of the
    // journal and then those of the requests.
    ensures script { result ≡ Ok 0 → IfSome (R.remaining journal) (λ kept.
        IfSome (Q.remaining requests) (λ asked. IsCleanJournal (rows_of kept)
        → length (rows_of kept ++ rows_of asked) ≤ MOST_ROWS → (lines : List ℕ) × (counts : Counts)
        × IsSolveRun (rows_of kept ++ rows_of asked) lines counts
        × Appends (W.contents writer.old) (W.contents writer.new) lines)) }
    ensures error { IfErr result
        (IsBatchFault accept_torn (R.remaining journal) (Q.remaining requests)) }
{
    // Law: if nothing is refused, the lines are those of a run over one stream: the journal's rows,
    // followed by the rows of the requests.
    lines_of_a_script();
    let streams = Streams {
        journal,
        requests,
        accept_torn,
    };
    answer(rt, alloc, streams, writer, workers, options.trees, gate)
}

/// Publishes the batches of a journal, and then answers requests at the last version. The
/// publisher's own journal stores nothing. Returns the status.
fn answer<R: Read + Drop, Q: Read + Drop, W: Write, G: Gate + Sync, T: Threads + Wait + Sync>(
    rt: &T,
    alloc: Global,
    streams: Streams<R, Q>,
    writer: &mut W,
    workers: usize,
    trees: usize,
    gate: &G,
) -> Result<u8, RunError>
    requires workers { (0 < workers) × (workers ≤ MOST_ASKERS) }
    ensures whole { IfOk result (λ status. IfSome (R.remaining streams.journal) (λ kept.
        IfSome (Q.remaining streams.requests) (λ asked.
        Writes (W.contents writer.old) (W.contents writer.new) (λ lines.
        IsBatchRun streams.accept_torn (rows_of kept) (rows_of asked) lines status)))) }
    ensures stopped { OnErr result (HasBegunBatch streams.accept_torn (R.remaining streams.journal)
        (Q.remaining streams.requests) (W.contents writer.old) (W.contents writer.new)) }
    ensures error { IfErr result (IsBatchFault streams.accept_torn
        (R.remaining streams.journal) (Q.remaining streams.requests)) }
{
    match open_for(rt, alloc, io::sink(), workers, trees) {
        Ok((publisher, askers)) => {
            let mut publisher = publisher;
            let lent = &mut publisher;
            let done = answer_lent(rt, alloc, lent, askers, streams, writer, gate);
            publisher.close(rt);
            done
        }
        Err((error, _journal)) => Err(error),
    }
}

/// Publishes the batches of a journal, and answers requests. The caller keeps the publisher.
fn answer_lent<
    T: Threads + Wait + Sync,
    J: Write,
    R: Read + Drop,
    Q: Read + Drop,
    W: Write,
    G: Gate + Sync,
>(
    rt: &T,
    alloc: Global,
    publisher: &mut Publisher<J>,
    askers: Vec<Asker>,
    streams: Streams<R, Q>,
    writer: &mut W,
    gate: &G,
) -> Result<u8, RunError>
    requires fresh { (publisher.old.batches ≡ []) × (publisher.old.stopped ≡ false) }
    requires askers { (0 < vec_len askers) × (vec_len askers ≤ MOST_ASKERS) }
    requires source { All (λ a. a.source ≡ publisher.old.source) askers.items }
    ensures error { IfErr result (IsBatchFault streams.accept_torn
        (R.remaining streams.journal) (Q.remaining streams.requests)) }
    ensures whole { IfOk result (λ status. IfSome (R.remaining streams.journal) (λ kept.
        IfSome (Q.remaining streams.requests) (λ asked.
        Writes (W.contents writer.old) (W.contents writer.new) (λ lines.
        IsBatchRun streams.accept_torn (rows_of kept) (rows_of asked) lines status)))) }
    ensures stopped { OnErr result (HasBegunBatch streams.accept_torn (R.remaining streams.journal)
        (Q.remaining streams.requests) (W.contents writer.old) (W.contents writer.new)) }
{
    match publish_and_read(rt, alloc, streams, publisher) {
        Ok(ReadStreams { unfit, requests }) => {
            answer_read(rt, alloc, unfit, publisher, askers, &requests, writer, gate)
        }
        Err(end) => refuse(alloc, end, writer),
    }
}

/// The input that a run has read from its streams.
#[derive(Drop)]
struct ReadStreams {
    /// The line of the first batch that doesn't fit, if there is one.
    unfit: Option<JudgeLine>,
    requests: Vec<Request>,
}

/// Publishes the batches of a journal, and then reads the requests.
fn publish_and_read<J: Write, R: Read + Drop, Q: Read + Drop, T: Wait>(
    rt: &T,
    alloc: Global,
    streams: Streams<R, Q>,
    publisher: &mut Publisher<J>,
) -> Result<ReadStreams, EarlyEnd>
    requires fresh { (publisher.old.batches ≡ []) × (publisher.old.stopped ≡ false) }
    ensures source { publisher.new.source ≡ publisher.old.source }
    ensures published { IfOk result (λ read. IfSome (R.remaining streams.journal) (λ bytes.
        (batches : List NumberedChanges)
        × AreBatchesOf streams.accept_torn (rows_of bytes) batches
        × ArePublishedOrRefused batches publisher.new.batches read.unfit)) }
    ensures requests { IfOk result (λ read. IfSome (Q.remaining streams.requests) (λ bytes.
        AreRequestsOf (rows_of bytes) read.requests.items)) }
    ensures most { IfOk result (λ read. length read.requests.items ≤ MOST_REQUESTS) }
    ensures err { IfErr result (λ end. IfRefused end (λ line.
        IfSome (R.remaining streams.journal) (λ kept. IfSome (Q.remaining streams.requests)
        (λ asked. AreStreamsRefused streams.accept_torn (rows_of kept) (rows_of asked) line)))) }
{
    let Streams {
        journal,
        requests,
        accept_torn,
    } = streams;
    let unfit = publish_journal(rt, alloc, journal, accept_torn, publisher)?;
    let requests = requests_of(alloc, requests)?;
    Ok(ReadStreams { unfit, requests })
}

/// Writes the line of each published version. Then it writes the line of the batch that doesn't
/// fit, or answers the requests if all batches fit. Returns the status.
#[tactic(auto, using(crate::proofs::StreamFaults::judged))]
fn answer_read<J: Write, W: Write, G: Gate + Sync, T: Threads + Sync>(
    rt: &T,
    alloc: Global,
    unfit: Option<JudgeLine>,
    publisher: &mut Publisher<J>,
    askers: Vec<Asker>,
    requests: &[Request],
    writer: &mut W,
    gate: &G,
) -> Result<u8, RunError>
    requires requests { length requests.now ≤ MOST_REQUESTS }
    requires askers { (0 < vec_len askers) × (vec_len askers ≤ MOST_ASKERS) }
    requires source { All (λ a. a.source ≡ publisher.old.source) askers.items }
    ensures whole { IfOk result (λ status. (batches : List NumberedChanges)
        → ArePublishedOrRefused batches publisher.old.batches unfit
        → Writes (W.contents writer.old) (W.contents writer.new) (λ lines.
        IsAcceptedOrUnfit batches requests.now lines status)) }
    ensures begun { OnErr result ((batches : List NumberedChanges)
        → ArePublishedOrRefused batches publisher.old.batches unfit
        → HasBegun (W.contents writer.old) (W.contents writer.new)
        (IsAcceptedInPart batches requests.now)) }
    ensures error { IfErr result (λ e. IsStreamFault e
        ⊎ IsAnsweringFault (λ index version. (index < length requests.now)
        × ((batches : List NumberedChanges) → ArePublishedOrRefused batches publisher.old.batches unfit
        → length batches < version)) e) }
{
    write_versions(alloc, publisher.version(), writer)?;
    match unfit {
        Some(line) => {
            put_line(alloc, line, writer)?;
            Ok(2)
        }
        None => {
            answer_in_parts(rt, alloc, publisher, askers, requests, writer, gate)?;
            Ok(0)
        }
    }
}
