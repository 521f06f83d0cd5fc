//! The steps of a journal, from its first step up to a step that was seen.
ghost use Rattle.std.specs.Prelude.{◌≡◌, ◌≤◌};
ghost use mathlib.Core.List.{IsPrefix};
ghost use Rattle.cspf_journal.specs.Histories.{BeginsWith};
ghost use Rattle.cspf_journal.specs.JournalSteps.{AreJournalSteps, batches_of, count_of};

use crate::history::History;
use crate::log_step::LogStep;
use logbook::Seen;
use std::marker::Model;

/// The steps of a journal, from the first step up to a step that was seen. The value uses no
/// memory.
#[derive(Drop)]
pub struct SeenSteps {
    seen: Seen<LogStep, u64, History>,
}

impl Model for SeenSteps {
    ghost use Rattle.cspf_journal.specs.JournalSteps.{KnownSteps, AreJournalSteps};

    ghost Value = { KnownSteps };

    ghost view = { λ s. record { steps = s.seen.log; source = s.seen.book } };

    ghost invariant = { λ s. AreJournalSteps s.seen.log };
}

impl SeenSteps {
    /// The journal's steps that are in `seen`.
    pub(crate) fn new(seen: Seen<LogStep, u64, History>) -> SeenSteps
        requires { AreJournalSteps seen.log }
        ensures { result ≡ record { steps = seen.log; source = seen.book } }
    {
        SeenSteps { seen }
    }

    /// The steps that were seen, in the form that the next step on a shared counter uses.
    pub(crate) fn seen(&self) -> Seen<LogStep, u64, History>
        ensures { (result.log ≡ self.now.steps) × (result.book ≡ self.now.source) }
    {
        self.seen.again()
    }

    /// A copy of the steps that were seen.
    pub fn copy(&self) -> SeenSteps
        ensures copy { result ≡ self.now }
        ensures journal { AreJournalSteps self.now.steps }
    {
        SeenSteps {
            seen: self.seen.again(),
        }
    }

    /// Adds the steps of `other` to the known steps. Each of the two lists of steps gives a count
    /// of published batches. A later reading of the journal's count of published batches finds
    /// at least the larger of these two counts.
    pub fn learn(&mut self, other: &SeenSteps)
        requires { other.now.source ≡ self.old.source }
        ensures source { self.new.source ≡ self.old.source }
        ensures own { IsPrefix self.old.steps self.new.steps }
        ensures other { IsPrefix other.now.steps self.new.steps }
        ensures own_count { count_of self.old.steps ≤ count_of self.new.steps }
        ensures other_count { count_of other.now.steps ≤ count_of self.new.steps }
        ensures own_batches { BeginsWith (batches_of self.new.steps) (batches_of self.old.steps) }
        ensures other_batches { BeginsWith (batches_of self.new.steps) (batches_of other.now.steps) }
        ensures journal { AreJournalSteps self.new.steps }
    {
        self.seen.learn(&other.seen);
    }
}
