//! The publisher: it checks each batch, writes the batch's text to the journal, and then publishes
//! the batch to the askers (which answer requests).

ghost use Rattle.std.specs.Prelude.{◌≡◌, ◌≢◌, ◌↔◌, ◌*◌, ◌≤◌, ◌⊎◌, ◌++◌, [], ◌∷◌, ℕ, true, false, length, take, All, IfOk, OnOk, IfErr, OnErr, vec_len, sum_by};
ghost use Rattle.std.specs.Io.KnownBytes.{Appends};
ghost use Rattle.cspf_publish.specs.Answers.{IsAnswerAfter};
ghost use Rattle.cspf_publish.specs.ApplyErrors.{IsApplyError, IsNextBatch};
ghost use Rattle.cspf_publish.specs.PublisherStates.{IsAskerCount};
ghost use Rattle.cspf_rows.specs.BatchText.{batch_text};
ghost use Rattle.cspf_journal.specs.Histories.{BeginsWith, IsHistory, MayFollow};
ghost use Rattle.cspf_journal.specs.JournalSteps.{batches_of, count_of};
ghost use Rattle.cspf_journal.specs.KnownBatches.{known_with};
ghost use Rattle.cspf_trees.specs.declared.limits.TheConstants.{TREE_BYTES, TREE_MEGABYTES};

use crate::prepared::PreparedBatch;
use crate::replicas::Replicas;
use crate::{Answer, ApplyError, Asker, MOST_ASKERS, OpenError, Told};
use cspf_journal::{JournalWriter, Known, NewJournal, NotRecorded, SeenSteps};
use cspf_model::{Batch, MOST_VERSIONS, Request};
use cspf_trees::{TREE_BYTES, TREE_MEGABYTES, trees_in};
use std::alloc::{AllocError, Global};
use std::io::Write;
use std::marker::Model;
use std::sync::Wait;

/// Publishes batches. The text of each batch is first written to the journal. A publisher isn't
/// `Drop`: end it by `close`.
pub struct Publisher<W> {
    replicas: Replicas,
    journal: JournalWriter<W>,
}

impl<W> Model for Publisher<W> {
    ghost use Rattle.std.specs.Prelude.{◌≡◌};
    ghost use Rattle.cspf_publish.specs.PublisherStates.{PublisherState};

    ghost Value = { PublisherState W };

    ghost view = { λ p. record {
      batches = p.replicas.batches;
      source = p.replicas.source;
      stopped = p.journal.stopped;
      journal = p.journal.writer;
    } };

    // The journal has recorded exactly the published batches.
    ghost invariant = { λ p. (p.journal.source ≡ p.replicas.source)
        × (p.journal.batches ≡ p.replicas.batches) };
}

/// Opens a publisher of the empty database, version 0, with 1 to 64 askers (which answer requests).
/// The publisher owns the journal's writer. The trees of lower bounds of all askers together use at
/// most `TREE_MEGABYTES` megabytes for their bounds. Each error returns the writer unchanged.
pub fn open<W: Write, R: Wait>(
    rt: &R,
    alloc: Global,
    journal: W,
    askers: usize,
) -> Result<(Publisher<W>, Vec<Asker>), (OpenError, W)>
    ensures publisher { IfOk result (λ opened.
        (opened.0.batches ≡ []) × (opened.0.stopped ≡ false) × (opened.0.journal ≡ journal)) }
    ensures askers { IfOk result (λ opened.
        All (λ a. (a.batches ≡ []) × (a.source ≡ opened.0.source)) opened.1.items) }
    ensures count { IfOk result (λ opened. vec_len opened.1 ≡ askers) }
    ensures trees { IfOk result (λ opened.
        sum_by (λ a. a.most_trees) opened.1.items * TREE_BYTES ≤ TREE_MEGABYTES * 1048576) }
    ensures within { OnOk result (IsAskerCount askers) }
    ensures outside { IfErr result (λ e. (e.0 ≡ OpenError.Askers) ↔ ¬ IsAskerCount askers) }
    ensures memory { IfErr result (λ e. IsAskerCount askers
        → (e.0 ≡ OpenError.Memory) ⊎ (e.0 ≡ OpenError.Places)) }
    ensures journal { IfErr result (λ e. e.1 ≡ journal) }
{
    let trees = trees_in(TREE_MEGABYTES);
    open_over(rt, alloc, NewJournal::new(journal), askers, trees)
}

/// Does the same as `open`, over a new journal. All askers (which answer requests) together keep at
/// most `trees` trees of lower bounds, in equal shares. The publisher and its askers know only
/// batches of this journal (the source is its identity). So the journal has recorded all batches
/// that they know.
pub fn open_over<W: Write, R: Wait>(
    rt: &R,
    alloc: Global,
    journal: NewJournal<W>,
    askers: usize,
    trees: usize,
) -> Result<(Publisher<W>, Vec<Asker>), (OpenError, W)>
    ensures publisher { IfOk result (λ opened. (opened.0.batches ≡ [])
        × (opened.0.stopped ≡ false) × (opened.0.journal ≡ journal.writer)) }
    ensures source { IfOk result (λ opened. opened.0.source ≡ journal.source) }
    ensures askers { IfOk result (λ opened.
        All (λ a. (a.batches ≡ []) × (a.source ≡ journal.source)) opened.1.items) }
    ensures count { IfOk result (λ opened. vec_len opened.1 ≡ askers) }
    ensures trees { IfOk result (λ opened. sum_by (λ a. a.most_trees) opened.1.items ≤ trees) }
    ensures within { OnOk result (IsAskerCount askers) }
    ensures outside { IfErr result (λ e. (e.0 ≡ OpenError.Askers) ↔ ¬ IsAskerCount askers) }
    ensures memory { IfErr result (λ e. IsAskerCount askers
        → (e.0 ≡ OpenError.Memory) ⊎ (e.0 ≡ OpenError.Places)) }
    ensures journal { IfErr result (λ e. e.1 ≡ journal.writer) }
{
    let (journal, right) = journal.start();
    if askers == 0 || askers > MOST_ASKERS {
        return Err((OpenError::Askers, journal.into_writer()));
    }
    let room = match Vec::with_capacity(alloc, askers) {
        Ok(room) => room,
        Err(refused) => return Err((OpenError::from(refused), journal.into_writer())),
    };
    let mut replicas = match Replicas::new(rt, alloc, right, askers) {
        Ok(replicas) => replicas,
        Err(refused) => return Err((OpenError::from(refused), journal.into_writer())),
    };
    match replicas.askers(rt, room, askers, trees) {
        Ok(all) => Ok((Publisher { replicas, journal }, all)),
        Err(refused) => {
            replicas.close(rt);
            Err((refused, journal.into_writer()))
        }
    }
}

impl<W: Write> Publisher<W> {
    /// The published version: the number of published batches.
    pub fn version(&self) -> u32
        ensures version { result ≡ length self.now.batches }
        ensures history { IsHistory self.now.batches }
    {
        self.replicas.version()
    }

    /// Whether the journal has failed. If so, no more batches are published.
    pub fn is_stopped(&self) -> bool
        ensures { result ≡ self.now.stopped }
    {
        self.journal.is_stopped()
    }

    /// The best answer in the database of the published version. The call never blocks.
    pub fn answer(&self, alloc: Global, request: &Request) -> Result<Answer, AllocError>
        ensures { IfOk result (IsAnswerAfter self.now.batches request.now) }
    {
        let outcome = self.replicas.best(alloc, request)?;
        Ok(Answer {
            id: request.id,
            version: self.replicas.version(),
            outcome,
        })
    }

    /// Returns a value from which askers learn of the batches that are published now. The call
    /// never blocks.
    pub fn tell(&mut self) -> Told
        ensures batches { result.batches ≡ self.old.batches }
        ensures source { result.source ≡ self.old.source }
        ensures same { self.new ≡ self.old }
    {
        self.replicas.tell()
    }

    /// Returns the steps of the journal, up to the last step that counts a batch as published.
    /// These steps count as many batches as this publisher has published. So an asker (which
    /// answers requests) that reads the count of published batches later reads at least this
    /// version.
    pub fn steps(&self) -> SeenSteps
        ensures source { result.source ≡ self.now.source }
        ensures count { count_of result.steps ≡ length self.now.batches }
        ensures recorded { BeginsWith (batches_of result.steps) self.now.batches }
    {
        self.replicas.steps()
    }

    /// Does everything for the publishing of a batch that may need memory or refuse the batch. The
    /// publisher is unchanged. Errors are checked in the order of `ApplyError`, and `Journal` is none
    /// of them.
    pub fn prepare(&self, alloc: Global, batch: &Batch) -> Result<PreparedBatch, ApplyError>
        ensures batch { IfOk result (λ prepared. prepared ≡ batch.now) }
        ensures next { OnOk result (IsNextBatch self.now batch.now) }
        ensures why { IfErr result (λ e. IsApplyError W.contents self.now self.now batch.now e) }
        ensures journal { IfErr result (λ e. (written : ℕ) → e ≢ ApplyError.Journal written) }
    {
        if self.journal.is_stopped() {
            return Err(ApplyError::Stopped);
        }
        let version = self.replicas.version();
        if version >= MOST_VERSIONS {
            return Err(ApplyError::Exhausted);
        }
        if batch.number != version + 1 {
            return Err(ApplyError::WrongNumber {
                expected: version + 1,
            });
        }
        if let Err(refusal) = self.replicas.check(batch) {
            return Err(ApplyError::Refused(refusal));
        }
        match PreparedBatch::new(alloc, batch) {
            Ok(prepared) => Ok(prepared),
            Err(_refused) => Err(ApplyError::Memory),
        }
    }

    /// Publishes a batch and returns the new version. The batch was prepared in this state of the
    /// publisher. The whole text of the batch is first written to the journal. After the batch is
    /// published, the count of published batches is raised to the new version, for askers (which
    /// answer requests) to read. The call may wait for askers that are inside a call. The error is
    /// `Journal` if a write to the journal fails. Only the publisher adds batches to the journal's
    /// list, so the error `Memory` happens in no run.
    pub fn publish<R: Wait>(&mut self, rt: &R, prepared: PreparedBatch) -> Result<u32, ApplyError>
        requires next { IsNextBatch self.old prepared }
        ensures source { self.new.source ≡ self.old.source }
        ensures published { OnOk result (self.new.batches ≡ self.old.batches ++ prepared ∷ []) }
        ensures version { IfOk result (λ version. version ≡ length self.new.batches) }
        ensures going { OnOk result (self.new.stopped ≡ false) }
        ensures recorded { OnOk result (Appends
            (W.contents self.old.journal) (W.contents self.new.journal) (batch_text prepared)) }
        ensures same { OnErr result (self.new.batches ≡ self.old.batches) }
        ensures why { IfErr result (λ e. IsApplyError W.contents self.old self.new prepared e) }
    {
        let PreparedBatch { batch, text } = prepared;
        match self.journal.record(&batch, text.as_slice()) {
            Ok(recorded) => Ok(self.replicas.publish(rt, batch, recorded)),
            Err(NotRecorded::Writer { written }) => Err(ApplyError::Journal { written }),
            Err(NotRecorded::Lost) => Err(ApplyError::Memory),
        }
    }

    /// Publishes a batch and returns the new version, as `prepare` and `publish` do one after the
    /// other. Errors are checked in the order of `ApplyError`.
    pub fn apply<R: Wait>(
        &mut self,
        rt: &R,
        alloc: Global,
        batch: &Batch,
    ) -> Result<u32, ApplyError>
        ensures source { self.new.source ≡ self.old.source }
        ensures next { OnOk result (IsNextBatch self.old batch.now) }
        ensures published { OnOk result (self.new.batches ≡ self.old.batches ++ batch.now ∷ []) }
        ensures version { IfOk result (λ version. version ≡ length self.new.batches) }
        ensures going { OnOk result (self.new.stopped ≡ false) }
        ensures recorded { OnOk result (Appends
            (W.contents self.old.journal) (W.contents self.new.journal) (batch_text batch.now)) }
        ensures same { OnErr result (self.new.batches ≡ self.old.batches) }
        ensures why { IfErr result (λ e. IsApplyError W.contents self.old self.new batch.now e) }
    {
        let prepared = self.prepare(alloc, batch)?;
        self.publish(rt, prepared)
    }

    /// Ends the publisher, and returns the journal's writer as it was after the last call. This
    /// call may wait for askers (which answer requests) that are inside a call.
    pub fn close<R: Wait>(self, rt: &R) -> W
        ensures { result ≡ self.journal }
    {
        let Publisher { replicas, journal } = self;
        replicas.close(rt);
        journal.into_writer()
    }
}
