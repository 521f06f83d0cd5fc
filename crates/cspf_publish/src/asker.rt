//! Askers. An asker answers requests from the published replica (a copy of the table of links), and
//! never waits.

ghost use Rattle.std.specs.Prelude.{◌≡◌, ◌⊎◌, length, IfOk, IfErr};
ghost use Rattle.std.specs.Arc.{arc_value};
ghost use Rattle.left_right.specs.Sides.{view};
ghost use Rattle.cspf_model.specs.Changes.{database_after};
ghost use Rattle.cspf_publish.specs.Answers.{IsAnswerAfter};
ghost use Rattle.cspf_publish.specs.AskerStates.{asker_with, known_of};
ghost use Rattle.cspf_journal.specs.Histories.{BeginsWith, IsHistory};
ghost use Rattle.cspf_journal.specs.JournalSteps.{batches_of};
ghost use Rattle.cspf_journal.specs.KnownBatches.{KnownBatches};
ghost use Rattle.cspf_journal.specs.Readings.{CatchesUp};
ghost use Rattle.cspf_publish.specs.ReplicaRule.{KnowsItsEntry};

use crate::asker_seat::{AskerSeat, ReplicaReader, enter_and_copy, enter_and_search};
use crate::{Answer, AskError, Told};
use core::mem::replace_with;
use cspf_db::Table;
use cspf_journal::{Known, PublishedCount, RowOfReader, SeenSteps};
use cspf_model::Request;
use cspf_trees::Growth;
use std::alloc::Global;
use std::marker::Model;
use std::sync::Arc;

/// An asker answers requests, and knows the batches up to the last version that it saw or learnt
/// of. Only one thread uses an asker at a time, but an asker may be moved to another thread. The
/// calls of an asker never block.
#[derive(Drop)]
pub struct Asker {
    seat: AskerSeat,
    known: Known,
    count: Arc<PublishedCount>,
}

impl Model for Asker {
    ghost use Rattle.std.specs.Prelude.{◌≡◌};
    ghost use Rattle.std.specs.Arc.{arc_value};
    ghost use Rattle.left_right.specs.Sides.{view as seen_by};
    ghost use Rattle.cspf_publish.specs.AskerSeats.{IsAskerSeat};
    ghost use Rattle.cspf_publish.specs.AskerStates.{AskerState, asker_with};
    ghost use Rattle.cspf_publish.specs.ReplicaRule.{KnowsItsEntry};

    ghost Value = { AskerState };

    ghost view = { λ a. asker_with a.known a.seat.most_trees };

    ghost invariant = { λ a. KnowsItsEntry (seen_by a.seat.reader.place) a.known
        × (arc_value a.count ≡ a.known.source)
        × IsAskerSeat a.seat };
}

impl Asker {
    pub(crate) fn new(
        reader: ReplicaReader,
        known: Known,
        count: Arc<PublishedCount>,
        most_trees: usize,
    ) -> Asker
        requires entry { KnowsItsEntry (view reader.place) known }
        requires count { arc_value count ≡ known.source }
        ensures { result ≡ asker_with known most_trees }
    {
        let seat = AskerSeat {
            reader,
            trees: None,
            most_trees,
            growth: Growth::AsPaid,
        };
        Asker { seat, known, count }
    }

    /// Returns the best answer in the database of the last published version. After the call the
    /// asker knows the batches of that version. On `NoEntry` the asker is unchanged. On `Memory` it
    /// may know more batches than before, and nothing else has changed.
    // The asker never enters a replica (a copy of the table) of a lower version than before. If the
    // version of the replica is below a version that the asker learnt of, the call returns
    // `NoEntry`. This happens in no run.
    pub fn ask(&mut self, alloc: Global, request: &Request) -> Result<Answer, AskError>
        ensures source { self.new.source ≡ self.old.source }
        ensures later { BeginsWith self.new.batches self.old.batches }
        ensures answer { IfOk result (λ answer. IsAnswerAfter self.new.batches request.now answer) }
        ensures no_entry { IfErr result (λ error. error ≡ AskError.NoEntry → self.new ≡ self.old) }
        ensures trees { self.new.most_trees ≡ self.old.most_trees }
    {
        let entry = replace_with(&mut self.seat, (alloc, *request), enter_and_search);
        let Some((known, outcome)) = entry else {
            return Err(AskError::NoEntry);
        };
        if !self.known.raise(&known) {
            return Err(AskError::NoEntry);
        }
        match outcome {
            Ok(outcome) => Ok(Answer {
                id: request.id,
                version: self.known.version(),
                outcome,
            }),
            Err(refused) => Err(AskError::from(refused)),
        }
    }

    /// Returns a copy of the table of the last published version. After the call the asker knows the
    /// batches of that version. On `NoEntry` the asker is unchanged. On `Memory` it may know more
    /// batches than before, and nothing else has changed.
    pub fn table(&mut self, alloc: Global) -> Result<Table, AskError>
        ensures source { self.new.source ≡ self.old.source }
        ensures later { BeginsWith self.new.batches self.old.batches }
        ensures table { IfOk result (λ table. table ≡ database_after self.new.batches) }
        ensures no_entry { IfErr result (λ error. error ≡ AskError.NoEntry → self.new ≡ self.old) }
        ensures trees { self.new.most_trees ≡ self.old.most_trees }
    {
        let entry = replace_with(&mut self.seat, alloc, enter_and_copy);
        let Some((known, table)) = entry else {
            return Err(AskError::NoEntry);
        };
        let is_later = self.known.raise(&known);
        if !is_later {
            return Err(AskError::NoEntry);
        }
        match table {
            Ok(table) => Ok(table),
            Err(refused) => Err(AskError::from(refused)),
        }
    }

    /// Says when the asker (which answers requests) grows trees of lower bounds from now on, and
    /// drops the trees that it has. Without this call trees are grown as a budget pays for them. The
    /// answers don't depend on it.
    pub fn set_growth(&mut self, growth: Growth)
        ensures { self.new ≡ self.old }
    {
        self.seat.trees = None;
        self.seat.growth = growth;
    }

    /// Learns of the batches that were published when `told` was made, if they are more than the
    /// asker (which answers requests) knows.
    pub fn learn(&mut self, told: Told)
        requires { told.source ≡ self.old.source }
        ensures source { self.new.source ≡ self.old.source }
        ensures later { BeginsWith self.new.batches self.old.batches }
        ensures told { BeginsWith self.new.batches told.batches }
        ensures one { (known_of self.new ≡ known_of self.old) ⊎ (known_of self.new ≡ told) }
        ensures trees { self.new.most_trees ≡ self.old.most_trees }
    {
        let _raised = self.known.raise(told.known());
    }

    /// The batches that the asker (which answers requests) knows. The journal has recorded all of
    /// them.
    pub fn known(&self) -> &Known
        ensures { result.now ≡ known_of self.now }
    {
        &self.known
    }

    /// The version up to which the asker (which answers requests) knows the batches.
    pub fn seen(&self) -> u32
        ensures version { result ≡ length self.now.batches }
        ensures history { IsHistory self.now.batches }
    {
        self.known.version()
    }

    /// Learns of the batches that were published when `told` was made. Returns the version up to
    /// which the asker (which answers requests) then knows batches.
    pub fn meet(&mut self, told: Told) -> u32
        requires { told.source ≡ self.old.source }
        ensures source { self.new.source ≡ self.old.source }
        ensures later { BeginsWith self.new.batches self.old.batches }
        ensures told { BeginsWith self.new.batches told.batches }
        ensures one { (known_of self.new ≡ known_of self.old) ⊎ (known_of self.new ≡ told) }
        ensures trees { self.new.most_trees ≡ self.old.most_trees }
        ensures version { result ≡ length self.new.batches }
    {
        self.learn(told);
        self.seen()
    }

    /// Reads the count of published batches, in one step of the journal. The step names the reader,
    /// and the row that the reader is about to answer. After the step the asker knows at least as
    /// many batches as the count. The reading is the last step of `steps` after the call. The
    /// publisher raises the count after each batch that it publishes. The call allocates no memory,
    /// and never blocks.
    pub fn catch_up(&mut self, steps: &mut SeenSteps, row: RowOfReader) -> u32
        requires { steps.old.source ≡ self.old.source }
        ensures caught_up { CatchesUp (known_of self.old) (known_of self.new) steps.old steps.new row.reader row.place result }
        ensures trees { self.new.most_trees ≡ self.old.most_trees }
    {
        self.known.catch_up(&self.count, steps, row)
    }

    /// Steps of the journal that record the known batches.
    pub fn steps(&self) -> SeenSteps
        ensures source { result.source ≡ self.now.source }
        ensures recorded { BeginsWith (batches_of result.steps) self.now.batches }
    {
        self.known.steps()
    }
}
