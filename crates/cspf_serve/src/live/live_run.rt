//! The run of `live`: publishes updates while workers answer requests, and writes the lines that
//! answer both.

ghost use Rattle.std.specs.Prelude.{◌≡◌, ℕ, ◌<◌, ◌≤◌, ◌⊎◌, List, [], length, All, IfOk, IfErr, IfSome, Err, OnOk, slice_get, vec_len, false};
ghost use Rattle.std.specs.Io.KnownBytes.{Appends};
ghost use Rattle.cspf_model.specs.Numbered.{AreNumberedFrom};
ghost use Rattle.cspf_publish.specs.Histories.{IsHistory};
ghost use Rattle.cspf_serve.specs.LiveRun.{AreAnsweredLive, IsLiveRun, AreRecordedAtError, IsRecordedAtError};
ghost use Rattle.cspf_rows.specs.Records.{rows_of};
ghost use Rattle.cspf_judge.specs.EarlyEnds.{Writes};
ghost use Rattle.cspf_serve.specs.LineTexts.{line_text};
ghost use Rattle.cspf_serve.specs.LiveLines.{AreLiveLines, IsFaultShown, last_text, last_status};
ghost use Rattle.cspf_serve.specs.RunFaults.{IsStreamFault, IsAnsweringFault, IsRunFault, IsLiveFault};
ghost use Rattle.cspf_model.specs.declared.limits.TheConstants.{MOST_VERSIONS};
ghost use Rattle.cspf_publish.specs.declared.limits.TheConstants.{MOST_ASKERS};
ghost use Rattle.cspf_work.specs.declared.limits.TheConstants.{MOST_REQUESTS};

use crate::line::Line;
use crate::live::inputs::{Inputs, inputs_of};
use crate::streams::opening::open_for;
use crate::streams::refusing::refuse;
use crate::streams::replies::write_replies;
use crate::{Gate, Live, RunError, RunOptions, ServeError, run_live};
use cspf_judge::{JudgeError, put};
use cspf_model::{Batch, Request};
use cspf_publish::{Answer, ApplyError, Asker, Publisher};
use std::alloc::Global;
use std::io::{Read, Write};
use std::sync::Wait;
use std::thread::Threads;

/// Publishes the batches of updates to a journal, while `workers` workers answer the requests of a
/// stream: `IsLiveRun`. The workers keep as many trees of lower bounds as the askers of `open`.
/// Both streams are read whole before any batch is published. The status is 2 if anything was
/// refused, and 0 otherwise. The journal's writer is always returned, also if there is an error.
/// This writer got the text of each published batch. If the journal failed, it also got a prefix of
/// the next batch's text. If an error is returned, the contents of the other writer are
/// unspecified. Neither writer is flushed.
pub fn run_live_rows<
    R: Read + Drop,
    Q: Read + Drop,
    J: Write,
    W: Write,
    G: Gate + Sync,
    T: Threads + Wait + Sync,
>(
    rt: &T,
    alloc: Global,
    updates: R,
    requests: Q,
    journal: J,
    writer: &mut W,
    workers: usize,
    gate: &G,
) -> (Result<u8, RunError>, J)
    requires workers { (0 < workers) × (workers ≤ MOST_ASKERS) }
    ensures whole { IfOk result.0 (λ status. IfSome (R.remaining updates) (λ kept.
        IfSome (Q.remaining requests) (λ asked. (lines : List ℕ) × (text : List ℕ)
        × IsLiveRun (rows_of kept) (rows_of asked) lines text status
        × Appends (W.contents writer.old) (W.contents writer.new) lines
        × Appends (J.contents journal) (J.contents result.1) text))) }
    ensures error { IfErr result.0 (IsLiveFault (Q.remaining requests)) }
    ensures recorded { IfErr result.0 (λ e. IfSome (R.remaining updates) (λ kept. (text : List ℕ)
        × IsRecordedAtError (rows_of kept) text
        × Appends (J.contents journal) (J.contents result.1) text)) }
{
    let options = RunOptions::new();
    run_live_rows_with(
        rt, alloc, updates, requests, journal, writer, workers, gate, options,
    )
}

/// As `run_live_rows`, but the options limit how many trees of lower bounds all workers keep
/// together.
pub fn run_live_rows_with<
    R: Read + Drop,
    Q: Read + Drop,
    J: Write,
    W: Write,
    G: Gate + Sync,
    T: Threads + Wait + Sync,
>(
    rt: &T,
    alloc: Global,
    updates: R,
    requests: Q,
    journal: J,
    writer: &mut W,
    workers: usize,
    gate: &G,
    options: RunOptions,
) -> (Result<u8, RunError>, J)
    requires workers { (0 < workers) × (workers ≤ MOST_ASKERS) }
    ensures whole { IfOk result.0 (λ status. IfSome (R.remaining updates) (λ kept.
        IfSome (Q.remaining requests) (λ asked. (lines : List ℕ) × (text : List ℕ)
        × IsLiveRun (rows_of kept) (rows_of asked) lines text status
        × Appends (W.contents writer.old) (W.contents writer.new) lines
        × Appends (J.contents journal) (J.contents result.1) text))) }
    ensures error { IfErr result.0 (IsLiveFault (Q.remaining requests)) }
    ensures recorded { IfErr result.0 (λ e. IfSome (R.remaining updates) (λ kept. (text : List ℕ)
        × IsRecordedAtError (rows_of kept) text
        × Appends (J.contents journal) (J.contents result.1) text)) }
{
    let Inputs { batches, requests } = match inputs_of(alloc, updates, requests) {
        Ok(read) => read,
        Err(end) => return (refuse(alloc, end, writer), journal),
    };
    let (publisher, askers) = match open_for(rt, alloc, journal, workers, options.trees) {
        Ok(opened) => opened,
        Err((error, journal)) => return (Err(error), journal),
    };
    answer_opened(
        rt, alloc, publisher, askers, &batches, &requests, writer, gate,
    )
}

/// Publishes batches while workers answer requests. The publisher is new: it hasn't published a
/// batch yet.
fn answer_opened<J: Write, W: Write, G: Gate + Sync, T: Threads + Wait + Sync>(
    rt: &T,
    alloc: Global,
    publisher: Publisher<J>,
    askers: Vec<Asker>,
    batches: &[Batch],
    requests: &[Request],
    writer: &mut W,
    gate: &G,
) -> (Result<u8, RunError>, J)
    requires fresh { (publisher.batches ≡ []) × (publisher.stopped ≡ false) }
    requires askers { (0 < vec_len askers) × (vec_len askers ≤ MOST_ASKERS) }
    requires source { All (λ a. a.source ≡ publisher.source) askers.items }
    requires batches { length batches.now ≤ MOST_VERSIONS }
    requires requests { length requests.now ≤ MOST_REQUESTS }
    ensures whole { AreNumberedFrom 1 batches.now → IfOk result.0 (λ status. (lines : List ℕ)
        × (text : List ℕ) × AreAnsweredLive batches.now requests.now lines text status
        × Appends (W.contents writer.old) (W.contents writer.new) lines
        × Appends (J.contents publisher.journal) (J.contents result.1) text) }
    ensures error { IfErr result.0 (IsRunFault
        (λ index version. (index < length requests.now) × (0 < version))) }
    ensures recorded { AreNumberedFrom 1 batches.now → IfErr result.0 (λ e. (text : List ℕ)
        × AreRecordedAtError batches.now text
        × Appends (J.contents publisher.journal) (J.contents result.1) text) }
{
    let ran = run_live(rt, alloc, publisher, askers, batches, requests, gate);
    end_live(rt, alloc, ran, batches, writer)
}

/// If there are answers, writes the lines of the answers and the line that counts the applied
/// batches. Closes the publisher.
fn end_live<J: Write, W: Write, T: Wait>(
    rt: &T,
    alloc: Global,
    ran: Result<Live<J>, (ServeError, Publisher<J>, Vec<Asker>)>,
    batches: &[Batch],
    writer: &mut W,
) -> (Result<u8, RunError>, J)
    ensures lines { IfOk ran (λ live. IfOk result.0 (λ status.
        Writes (W.contents writer.old) (W.contents writer.new)
        (AreLiveLines live.list.items batches.now (length live.publisher.batches) live.fault
        status))) }
    ensures journal { IfOk ran (λ live. result.1 ≡ live.publisher.journal) }
    ensures history { IfOk ran (λ live. IsHistory live.publisher.batches) }
    ensures error { IfOk ran (λ live. IfErr result.0 IsStreamFault) }
    // An error of the workers is returned inside the error `Serve`.
    ensures fault { IfErr ran (λ e. result.0 ≡ Err (RunError.Serve e.0)) }
    ensures closed { IfErr ran (λ e. result.1 ≡ e.1.journal) }
{
    match ran {
        Ok(
            Live {
                publisher,
                list,
                drawn: _,
                askers: _,
                applied: _,
                fault,
            },
        ) => {
            let version = publisher.version();
            let written = write_live(alloc, list.as_slice(), batches, version, fault, writer);
            (written, publisher.close(rt))
        }
        Err((error, publisher, _askers)) => (Err(RunError::from(error)), publisher.close(rt)),
    }
}

/// Writes the lines of a live run, and returns its status.
#[tactic(auto, using(crate::proofs::StreamFaults::judged))]
fn write_live<W: Write>(
    alloc: Global,
    answers: &[Answer],
    batches: &[Batch],
    applied: u32,
    fault: Option<ApplyError>,
    writer: &mut W,
) -> Result<u8, RunError>
    ensures text { IfOk result (λ status. Writes (W.contents writer.old) (W.contents writer.new)
        (AreLiveLines answers.now batches.now applied fault status)) }
    ensures error { IfErr result IsStreamFault }
{
    write_replies(alloc, answers, writer)?;
    say(alloc, Line::Applied { count: applied }, writer)?;
    match fault_line(batches, applied, fault) {
        Some(line) => {
            say(alloc, line, writer)?;
            Ok(2)
        }
        None => Ok(0),
    }
}

/// Writes a line.
fn say<W: Write>(alloc: Global, line: Line, writer: &mut W) -> Result<(), JudgeError>
    ensures text { OnOk result (Appends (W.contents writer.old) (W.contents writer.new)
        (line_text line)) }
{
    let bytes = line.bytes(alloc)?;
    put(&bytes, writer)
}

/// The line of the batch that wasn't applied, if there is one.
fn fault_line(batches: &[Batch], applied: u32, fault: Option<ApplyError>) -> Option<Line>
    ensures { IsFaultShown (slice_get batches.now applied) fault
        (last_text result) (last_status result) }
{
    let Some(error) = fault else {
        return None;
    };
    let Some(batch) = batches.get(applied as usize) else {
        // This doesn't happen: if there is a fault, a batch follows the applied batches.
        return None;
    };
    let number = batch.number;
    Some(Line::Unpublished { number, error })
}
