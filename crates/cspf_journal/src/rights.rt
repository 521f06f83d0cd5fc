//! The rights of a journal. One is the right to show its batches to askers (which answer requests),
//! and one is the right to count them as published. Two are rights to keep a copy of the table that
//! the batches make.
ghost use Rattle.std.specs.Prelude.{◌≡◌, length, MatchBool};
ghost use Rattle.cspf_model.specs.Numbered.{NumberedChanges};
ghost use Rattle.cspf_journal.specs.Histories.{BeginsWith};
ghost use Rattle.cspf_journal.specs.JournalSteps.{batches_of, count_of};
ghost use Rattle.cspf_journal.specs.KnownBatches.{known_with};

use crate::known::Known;
use crate::published_count::PublishedCount;
use crate::seen_steps::SeenSteps;
use std::marker::Model;

/// The right to count the batches of a journal as published, one by one. Each journal makes only
/// one such right, and it can't be copied. In contracts the value of the right is the batches that
/// were counted as published.
#[derive(Drop)]
pub struct RightToCount {
    known: Known,
    steps: SeenSteps,
}

impl Model for RightToCount {
    ghost use Rattle.std.specs.Prelude.{◌≡◌, length};
    ghost use Rattle.cspf_journal.specs.Histories.{BeginsWith};
    ghost use Rattle.cspf_journal.specs.JournalSteps.{batches_of, count_of};
    ghost use Rattle.cspf_journal.specs.KnownBatches.{KnownBatches};

    ghost Value = { KnownBatches };

    ghost view = { λ r. r.known };

    ghost invariant = { λ r. (r.steps.source ≡ r.known.source)
        × (count_of r.steps.steps ≡ length r.known.batches)
        × BeginsWith (batches_of r.steps.steps) r.known.batches };
}

impl RightToCount {
    /// The right to count batches as published, starting after the batches `known`.
    pub(crate) fn new(known: Known, steps: SeenSteps) -> RightToCount
        requires source { steps.source ≡ known.source }
        requires count { count_of steps.steps ≡ length known.batches }
        requires recorded { BeginsWith (batches_of steps.steps) known.batches }
        ensures { result ≡ known }
    {
        RightToCount { known, steps }
    }

    /// The batches that were counted as published.
    pub(crate) fn known(&self) -> Known
        ensures { result ≡ self.now }
    {
        self.known.copy()
    }

    /// Counts the last batch of `published` as published, and returns true. If the count in `word`
    /// isn't the number of batches that this right has counted, nothing changes, and the result is
    /// false. This happens in no run.
    pub fn count(&mut self, word: &PublishedCount, published: &Known) -> bool
        requires word { word.now ≡ self.old.source }
        requires next { (b : NumberedChanges)
            × (published.now ≡ known_with self.old.batches self.old.source b) }
        ensures { MatchBool result (self.new ≡ published.now) (self.new ≡ self.old) }
    {
        let mut seen = self.steps.seen();
        seen.learn(&published.seen());
        if !word.move_to(published.version(), &mut seen) {
            return false;
        }
        self.known = published.copy();
        self.steps = SeenSteps::new(seen);
        true
    }

    /// The journal's steps, up to the last step that counts a batch as published. These steps
    /// record the published batches, and count all of them.
    pub fn steps(&self) -> SeenSteps
        ensures source { result.source ≡ self.now.source }
        ensures count { count_of result.steps ≡ length self.now.batches }
        ensures recorded { BeginsWith (batches_of result.steps) self.now.batches }
    {
        self.steps.copy()
    }
}

/// The right to keep one copy of the table of a journal's batches. Each journal makes two such
/// rights, and they can't be copied. In contracts the value of the right is its journal's identity
/// (the source). The right uses no memory.
#[derive(Drop)]
pub struct CopyRight {
    steps: SeenSteps,
}

impl Model for CopyRight {
    ghost use Rattle.logbook.specs.Pages.{Book, book_coded};

    ghost Value = { Book };

    ghost coded = { book_coded };

    ghost view = { λ r. r.steps.source };
}

impl CopyRight {
    /// The right to keep a copy of the table that a journal's batches make. `steps` are steps of
    /// this journal.
    pub(crate) fn new(steps: SeenSteps) -> CopyRight
        ensures { result ≡ steps.source }
    {
        CopyRight { steps }
    }
}

/// The right to show the batches of a journal to askers, which answer requests. Each journal makes
/// only one such right, and the right can't be copied.
#[derive(Drop)]
pub struct RightToShow {
    right: RightToCount,
    count: PublishedCount,
    first: CopyRight,
    second: CopyRight,
}

impl Model for RightToShow {
    ghost use Rattle.std.specs.Prelude.{◌≡◌};
    ghost use Rattle.cspf_journal.specs.KnownBatches.{KnownBatches};

    ghost Value = { KnownBatches };

    ghost view = { λ r. r.right };

    ghost invariant = { λ r. (r.count ≡ r.right.source)
        × (r.first ≡ r.right.source)
        × (r.second ≡ r.right.source) };
}

impl RightToShow {
    /// The right to show the journal's batches to askers (which answer requests). It has the right
    /// `right` to count batches as published, and the count of published batches that `right`
    /// raises. It also has two `CopyRight`s. Each is the right to keep a copy of the table.
    pub(crate) fn new(right: RightToCount, count: PublishedCount) -> RightToShow
        requires { count ≡ right.source }
        ensures { result ≡ right }
    {
        let first = CopyRight::new(right.steps());
        let second = CopyRight::new(right.steps());
        RightToShow {
            right,
            count,
            first,
            second,
        }
    }

    /// The batches that this right knows. A new journal has none.
    pub fn known(&self) -> Known
        ensures { result ≡ self.now }
    {
        self.right.known()
    }

    /// Splits this right into its parts: the right to count batches as published, the count of
    /// published batches, and the two `CopyRight`s. The right to count raises this count. Each
    /// `CopyRight` is the right to keep a copy of the table.
    pub fn split(self) -> (RightToCount, PublishedCount, CopyRight, CopyRight)
        ensures right { result.0 ≡ self }
        ensures count { result.1 ≡ self.source }
        ensures copies { (result.2 ≡ self.source) × (result.3 ≡ self.source) }
    {
        let RightToShow {
            right,
            count,
            first,
            second,
        } = self;
        (right, count, first, second)
    }
}
