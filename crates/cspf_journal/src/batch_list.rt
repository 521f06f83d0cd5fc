//! The list of all batches of a journal. Only its owner can add batches.
ghost use Rattle.std.specs.Prelude.{◌≡◌, [], IfSome};
ghost use Rattle.cspf_journal.specs.Histories.{MayFollow};
ghost use Rattle.cspf_journal.specs.HistoryRule.{length_word};
ghost use Rattle.cspf_journal.specs.KnownBatches.{known_with};

use crate::history::{AddBatch, History, NoGain};
use crate::known::Known;
use crate::log_step::LogStep;
use crate::published_count::PublishedCount;
use crate::rights::{RightToCount, RightToShow};
use crate::seen_steps::SeenSteps;
use cspf_model::{Batch, lawful_batches};
use logbook::{Offer, Seen, Start, Word};
use std::marker::Model;

/// The counter that threads share. It is the length of the list of batches.
type LengthWord = Word<LogStep, u64, History>;

/// A list of batches, as its owner has it: the shared counter that is the list's length, and the
/// batches that the owner knows. Batches are added only through this value.
#[derive(Drop)]
pub(crate) struct BatchList {
    word: LengthWord,
    kept: Known,
}

impl Model for BatchList {
    ghost use Rattle.std.specs.Prelude.{◌≡◌};
    ghost use Rattle.cspf_journal.specs.HistoryRule.{length_word};
    ghost use Rattle.cspf_journal.specs.KnownBatches.{KnownBatches};

    ghost Value = { KnownBatches };

    ghost view = { λ l. l.kept };

    ghost invariant = { λ l. l.word ≡ length_word l.kept.source };
}

impl BatchList {
    /// Makes a new list without batches, and the right to show the list's batches to askers, which
    /// answer requests.
    pub(crate) fn new() -> (BatchList, RightToShow)
        ensures list { result.0.batches ≡ [] }
        ensures right { result.1 ≡ record { batches = []; source = result.0.source } }
    {
        let (seen, mut first, mut second) = Seen::open(Start::alone(), 0, 0);
        let word = Word::tracked(0, &mut first);
        let count = PublishedCount::new(Word::tracked(0, &mut second));
        let steps = SeenSteps::new(seen.again());
        let kept = Known::new(0, seen);
        let right = RightToCount::new(kept.copy(), steps);
        (BatchList { word, kept }, RightToShow::new(right, count))
    }

    /// Adds a batch to the shared list of batches in one atomic step, and returns the longer list.
    /// This value knows the longer list only after a call of `keep`. If the shared list already has
    /// more batches than this value knows, the batch isn't added, and the result is `None`.
    pub(crate) fn add(&self, batch: &Batch) -> Option<Known>
        requires { MayFollow self.now.batches batch.now }
        ensures { IfSome result (λ longer.
            longer ≡ known_with self.now.batches self.now.source batch.now) }
    {
        // Law: if a list of batches is lawful and one more batch fits its database, the longer list
        // is lawful. A list is lawful if each batch fits the database of the batches before it.
        lawful_batches();
        let mut seen = self.kept.seen();
        let mut offer: Offer<LogStep, u64, History, NoGain> = seen.plain::<NoGain, Batch, AddBatch>(
            batch,
        );
        let mut pen = seen.no_pen();
        let old = self.kept.version() as u64;
        let found = self
            .word
            .compare_exchange::<AddBatch, NoGain>(old, old + 1, &mut seen, &mut offer, &mut pen);
        if found != old {
            return None;
        }
        Some(Known::new(batch.number, seen))
    }

    /// After this call `longer` is the list of batches that this value knows.
    pub(crate) fn keep(&mut self, longer: &Known)
        requires { longer.now.source ≡ self.old.source }
        ensures { self.new ≡ longer.now }
    {
        self.kept = longer.copy();
    }
}
