//! A prefix of a journal's list of batches: the known batches.
ghost use Rattle.std.specs.Prelude.{◌≡◌, ◌<◌, length, MatchBool};
ghost use Rattle.cspf_journal.specs.Histories.{BeginsWith, IsHistory};
ghost use Rattle.cspf_journal.specs.JournalSteps.{batches_of};
ghost use Rattle.cspf_journal.specs.Readings.{CatchesUp};

use crate::history::History;
use crate::log_step::{LogStep, RowOfReader};
use crate::published_count::PublishedCount;
use crate::seen_steps::SeenSteps;
use cspf_model::lawful_batches;
use logbook::Seen;
use std::marker::Model;

/// A prefix of a journal's list of batches. At run time only the prefix's length is stored. In
/// proofs the value also has the steps of the journal that were seen. These steps may record more
/// batches.
#[derive(Drop)]
pub struct Known {
    version: u32,
    seen: Seen<LogStep, u64, History>,
}

impl Model for Known {
    ghost use Rattle.std.specs.Prelude.{◌≤◌, length, take};
    ghost use Rattle.cspf_journal.specs.Histories.{IsHistory};
    ghost use Rattle.cspf_journal.specs.JournalSteps.{batches_of};
    ghost use Rattle.cspf_journal.specs.KnownBatches.{KnownBatches};

    ghost Value = { KnownBatches };

    ghost view = { λ k. record {
      batches = take k.version (batches_of k.seen.log);
      source = k.seen.book;
    } };

    ghost invariant = { λ k. (k.version ≤ length (batches_of k.seen.log))
        × IsHistory (take k.version (batches_of k.seen.log)) };
}

impl Known {
    /// All batches that the steps `seen` record. `version` is the number of these batches.
    pub(crate) fn new(version: u32, seen: Seen<LogStep, u64, History>) -> Known
        requires version { version ≡ length (batches_of seen.log) }
        requires history { IsHistory (batches_of seen.log) }
        ensures { result ≡ record { batches = batches_of seen.log; source = seen.book } }
    {
        Known { version, seen }
    }

    /// The steps of the journal that this value has seen. They record the known batches.
    pub(crate) fn seen(&self) -> Seen<LogStep, u64, History>
        ensures recorded { BeginsWith (batches_of result.log) self.now.batches }
        ensures source { result.book ≡ self.now.source }
    {
        self.seen.again()
    }

    /// The number of known batches.
    pub fn version(&self) -> u32
        ensures version { result ≡ length self.now.batches }
        ensures history { IsHistory self.now.batches }
    {
        self.version
    }

    /// A copy of the known batches.
    pub fn copy(&self) -> Known
        ensures { result ≡ self.now }
    {
        Known {
            version: self.version,
            seen: self.seen.again(),
        }
    }

    /// If `other` has at least as many batches as this value, they become the known batches.
    /// Returns whether they did. Of the two lists, the shorter one is a prefix of the longer one.
    pub fn raise(&mut self, other: &Known) -> bool
        requires { other.now.source ≡ self.old.source }
        ensures { MatchBool result
            ((self.new ≡ other.now) × BeginsWith other.now.batches self.old.batches)
            ((self.new ≡ self.old) × (length other.now.batches < length self.old.batches)
            × BeginsWith self.old.batches other.now.batches) }
    {
        let mut both = self.seen.again();
        both.learn(&other.seen);
        if other.version < self.version {
            return false;
        }
        *self = other.copy();
        true
    }

    /// Reads the count of published batches, before the reader named in `row` answers this row.
    /// After the call this value has at least as many batches as the count. The reading is a step
    /// of the journal, and the last step of `steps` after the call.
    pub fn catch_up(
        &mut self,
        count: &PublishedCount,
        steps: &mut SeenSteps,
        row: RowOfReader,
    ) -> u32
        requires count { count.now ≡ self.old.source }
        requires steps { steps.old.source ≡ self.old.source }
        ensures { CatchesUp self.old self.new steps.old steps.new row.reader row.place result }
    {
        // Law: if each batch of a list fits the database of the batches before it, the same is true
        // of each prefix of the list.
        lawful_batches();
        let mut seen = steps.seen();
        seen.learn(&self.seen);
        let published = count.read(&mut seen, row);
        self.version = self.version.max(published);
        self.seen = seen.again();
        *steps = SeenSteps::new(seen);
        published
    }

    /// The steps of the journal that this value has seen. They record the known batches.
    pub fn steps(&self) -> SeenSteps
        ensures source { result.source ≡ self.now.source }
        ensures recorded { BeginsWith (batches_of result.steps) self.now.batches }
    {
        let mut seen = self.seen.again();
        seen.learn(&self.seen);
        SeenSteps::new(seen)
    }
}
