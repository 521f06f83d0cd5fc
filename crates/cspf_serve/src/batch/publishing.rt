//! Publishes the batches of a journal as they are read, up to the first one that doesn't fit.

ghost use Rattle.std.specs.Prelude.{◌≡◌, ◌+◌, ◌≤◌, ◌∷◌, ◌++◌, List, Option, ℕ, [], None, length, IfOk, IfErr, IfSome, OnOk, OnErr, false};
ghost use Rattle.cspf_model.specs.Numbered.{NumberedChanges, AreNumberedFrom};
ghost use Rattle.cspf_model.specs.declared.limits.TheConstants.{MOST_VERSIONS};
ghost use Rattle.cspf_rows.specs.GivenBatches.{CanRead, HasGiven};
ghost use Rattle.cspf_rows.specs.Records.{rows_of};
ghost use Rattle.cspf_judge.specs.EarlyEnds.{IfRefused, IfFailed};
ghost use Rattle.cspf_judge.specs.Inputs.{AreBatchesOf, IsJournalRefused};
ghost use Rattle.cspf_serve.specs.EarlyEnds.{IsOwnFaultLine, IsFaultBeyond, IsPublishingFault};
ghost use Rattle.cspf_serve.specs.PublishedBatches.{ArePublishedOrRefused};

use cspf_judge::{EarlyEnd, JudgeError, JudgeLine, accept_rest, journal_end_of};
use cspf_model::Batch;
use cspf_publish::{ApplyError, Publisher};
use cspf_rows::{JournalReader, JournalStep};
use cspf_stream::{BatchRefusal, StreamLine};
use std::alloc::Global;
use std::io::{Read, Write};
use std::sync::Wait;

/// Publishes the batches of a journal as they are read, with one batch at a time in memory. The
/// first batch that doesn't fit isn't published, and the line that refuses it is returned. No later
/// batch is published either. The journal is read to its end. Rows after the batches are skipped if
/// `accept_torn` is true, and refused otherwise.
pub(super) fn publish_journal<R: Read + Drop, J: Write, T: Wait>(
    rt: &T,
    alloc: Global,
    journal: R,
    accept_torn: bool,
    publisher: &mut Publisher<J>,
) -> Result<Option<JudgeLine>, EarlyEnd>
    requires fresh { (publisher.old.batches ≡ []) × (publisher.old.stopped ≡ false) }
    ensures source { publisher.new.source ≡ publisher.old.source }
    ensures ok { IfOk result (λ unfit. IfSome (R.remaining journal) (λ bytes.
        (batches : List NumberedChanges) × AreBatchesOf accept_torn (rows_of bytes) batches
        × ArePublishedOrRefused batches publisher.new.batches unfit)) }
    ensures err { IfErr result (λ end. IfRefused end (λ line. IfSome (R.remaining journal)
        (λ bytes. IsJournalRefused accept_torn (rows_of bytes) line))) }
{
    let mut journal = JournalReader::new(alloc, journal);
    let mut batch = Batch {
        number: 0,
        changes: Vec::new(alloc),
    };
    publish_all(rt, alloc, &mut journal, &mut batch, accept_torn, publisher)
}

/// Publishes the batches that a reader of a journal returns, with one batch at a time in memory.
fn publish_all<R: Read, J: Write, T: Wait>(
    rt: &T,
    alloc: Global,
    journal: &mut JournalReader<R>,
    batch: &mut Batch,
    accept_torn: bool,
    publisher: &mut Publisher<J>,
) -> Result<Option<JudgeLine>, EarlyEnd>
    requires can { CanRead journal.old }
    requires fresh { (publisher.old.batches ≡ []) × (publisher.old.stopped ≡ false) }
    ensures source { publisher.new.source ≡ publisher.old.source }
    ensures ok { IfOk result (λ unfit. (all : Option (List (List (List ℕ))))
        → HasGiven R.remaining all journal.old [] → IfSome all (λ rows.
        (batches : List NumberedChanges) × AreBatchesOf accept_torn rows batches
        × ArePublishedOrRefused batches publisher.new.batches unfit)) }
    ensures err { IfErr result (λ end. IfRefused end (λ line.
        (all : Option (List (List (List ℕ)))) → HasGiven R.remaining all journal.old []
        → IfSome all (λ rows. IsJournalRefused accept_torn rows line))) }
{
    let mut unfit = None;
    let mut count = 0;
    loop {
        match journal.read_batch(batch) {
            Ok(JournalStep::Batch) => {
                unfit = publish(rt, alloc, batch, unfit, publisher)?;
                count += 1;
            }
            Ok(JournalStep::End(rest)) => {
                accept_rest(rest, count, accept_torn)?;
                return Ok(unfit);
            }
            Err(error) => return Err(journal_end_of(error)),
        }
    }
}

/// Publishes the next batch. If the batch doesn't fit, returns the line that refuses it. Does
/// nothing if an earlier batch didn't fit.
fn publish<J: Write, T: Wait>(
    rt: &T,
    alloc: Global,
    batch: &Batch,
    unfit: Option<JudgeLine>,
    publisher: &mut Publisher<J>,
) -> Result<Option<JudgeLine>, JudgeError>
    requires going { unfit ≡ None → publisher.old.stopped ≡ false }
    ensures source { publisher.new.source ≡ publisher.old.source }
    ensures going { result ≡ Ok None → publisher.new.stopped ≡ false }
    ensures published { IfOk result (λ found. (given : List NumberedChanges)
        → AreNumberedFrom 1 (given ++ batch.now ∷ []) → (length given + 1 ≤ MOST_VERSIONS)
        → ArePublishedOrRefused given publisher.old.batches unfit
        → ArePublishedOrRefused (given ++ batch.now ∷ []) publisher.new.batches found) }
    ensures error { IfErr result
        (IsPublishingFault publisher.old publisher.new batch.now) }
{
    if let Some(line) = unfit {
        return Ok(Some(line));
    }
    match publisher.apply(rt, alloc, batch) {
        Ok(_) => Ok(None),
        Err(error) => match end_of(batch.number, error) {
            EarlyEnd::Refused(line) => Ok(Some(line)),
            EarlyEnd::Failed(error) => Err(error),
        },
    }
}

/// Returns how a run ends at a batch that wasn't published.
fn end_of(number: u32, error: ApplyError) -> EarlyEnd
    ensures refused { IfRefused result (IsOwnFaultLine error number) }
    ensures failed { IfFailed result (IsFaultBeyond error) }
{
    let refusal = match error {
        ApplyError::Exhausted => BatchRefusal::Exhausted,
        ApplyError::WrongNumber { expected } => BatchRefusal::WrongNumber { expected },
        ApplyError::Refused(why) => BatchRefusal::Unfit(why),
        ApplyError::Memory => return EarlyEnd::Failed(JudgeError::Memory),
        ApplyError::Stopped | ApplyError::Journal { .. } => {
            return EarlyEnd::Failed(JudgeError::Device);
        }
    };
    EarlyEnd::Refused(JudgeLine::Stream(StreamLine::RefusedBatch { number, refusal }))
}
