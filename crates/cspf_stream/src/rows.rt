//! Answers the rows of a stream, each according to its kind. A change stays open until the `end`
//! row of its batch comes. At an `end` row, the open changes go to a sink as a batch. The sink also
//! answers the requests.

ghost use Rattle.std.specs.Prelude.{◌≡◌, ◌+◌, ◌<◌, ◌≤◌, ◌⊎◌, ◌^◌, ℕ, [], List, IfOk, IfErr, IfSome, IfNone, OnOk, OnErr};
ghost use Rattle.cspf_model.specs.declared.batch.Change.{Change as Changed};
ghost use Rattle.cspf_stream.specs.OpenChanges.{AreOpen};

use crate::{BatchAnswer, BatchRefusal, OpenChanges, Sink, Step, StreamLine, refused_row};
use cspf_model::MOST_VERSIONS;
use cspf_rows::{Row, RowError};
use std::alloc::{AllocError, Global};

/// The state between two rows of a stream. Its memory doesn't grow with the number of rows. The
/// state has only the sink and the open changes that are kept.
#[derive(Drop)]
pub struct Rows<S> {
    /// The sink, which accepts or refuses the batches and answers the requests.
    pub sink: S,
    /// The open changes, which are the changes since the last `end` row.
    pub changes: OpenChanges,
    /// How many requests were answered.
    pub answers: u64,
    /// How many rows and batches of the stream were refused.
    pub refused: u64,
}

impl<S> Rows<S> {
    ghost use Rattle.cspf_stream.specs.Lines.{last_line};
    ghost use Rattle.cspf_stream.specs.RowCounts.{CanCountOneMore, GrowsByOneAtMost};
    ghost use Rattle.cspf_stream.specs.RowsTaken.{RowsLead, IsRightFor, IsWrongFor, IsBatchTaken, IsBatchDropped, IsEndAccepted, IsEndRefused, IsStepTaken, IsRowTaken, IsStepLost, IsRowLost};

    /// The state before the first row of a stream: no change is open, and nothing was answered or
    /// refused.
    pub fn new(alloc: Global, sink: S) -> Rows<S>
        ensures sink { result.sink ≡ sink }
        ensures open { AreOpen result.changes [] }
        ensures none { (result.changes.count ≡ 0) × (result.answers ≡ 0) × (result.refused ≡ 0) }
    {
        Rows {
            sink,
            changes: OpenChanges::new(alloc),
            answers: 0,
            refused: 0,
        }
    }

    /// Answers the row with this number, counted from 1, and returns its line, which is empty for a
    /// change.
    pub fn answer<C>(
        &mut self,
        context: &C,
        alloc: Global,
        place: u64,
        row: &Result<Row, RowError>,
    ) -> Result<Vec<u8>, AllocError>
    where
        S: Sink<C>,
        requires { CanCountOneMore self.old }
        ensures answered { IfOk result (λ line. RowsLead self.old self.new
            (λ s t. IsRowTaken S.spec place s row.now line.items t)) }
        ensures failed { OnErr result (RowsLead self.old self.new
            (λ s t. IsRowLost S.spec s row.now t)) }
        ensures counts { GrowsByOneAtMost self.old self.new }
    {
        match row {
            Ok(row) => self.take(context, alloc, Step::of(row)),
            Err(error) => {
                let line = refused_row(alloc, place, *error)?;
                self.refused += 1;
                Ok(line)
            }
        }
    }

    /// Answers a row that asks for this step, and returns the row's line. The caller reads the row,
    /// so it may have more kinds of rows, which it answers itself.
    pub fn take<C>(&mut self, context: &C, alloc: Global, step: Step) -> Result<Vec<u8>, AllocError>
    where
        S: Sink<C>,
        requires { CanCountOneMore self.old }
        ensures answered { IfOk result (λ line. RowsLead self.old self.new
            (λ s t. IsStepTaken S.spec s step line.items t)) }
        ensures failed { OnErr result (RowsLead self.old self.new
            (λ s t. IsStepLost S.spec s step t)) }
        ensures counts { GrowsByOneAtMost self.old self.new }
    {
        match step {
            Step::Change(change) => {
                self.changes.add(change)?;
                Ok(Vec::new(alloc))
            }
            Step::End { number, count } => self.end(context, alloc, number, count),
            Step::Ask(request) => {
                let line = self.sink.reply(alloc, &request)?;
                self.answers += 1;
                Ok(line)
            }
        }
    }

    /// The last line of a run. If there are too many rows, the line reports only this. Otherwise it
    /// says how many changes are still open, and is empty if no changes are open.
    pub fn last_line(&self, alloc: Global, too_many: bool) -> Result<Vec<u8>, AllocError>
        ensures { IfOk result (λ line. (all : List Changed) → AreOpen self.now.changes all
            → line.items ≡ last_line too_many all) }
    {
        if too_many {
            StreamLine::TooManyRows.bytes(alloc)
        } else {
            self.changes.last_line(alloc)
        }
    }

    /// Gives the open changes to the sink as the batch of an `end` row with this number and count,
    /// or refuses them. Returns the lines of the `end` row. Afterwards no changes are open.
    fn end<C>(
        &mut self,
        context: &C,
        alloc: Global,
        number: u32,
        count: u32,
    ) -> Result<Vec<u8>, AllocError>
    where
        S: Sink<C>,
        requires { self.old.refused + 1 < 2 ^ 64 }
        ensures answered { IfOk result (λ line. RowsLead self.old self.new
            (λ s t. IsEndAccepted S.spec s number count line.items t
            ⊎ IsEndRefused S.spec s number count line.items t)) }
        ensures failed { OnErr result (RowsLead self.old self.new
            (λ s t. (t ≡ s) ⊎ ((line : List ℕ) × IsEndRefused S.spec s number count line t))) }
        ensures count { self.new.changes.count ≤ self.old.changes.count }
        ensures answers { self.new.answers ≡ self.old.answers }
        ensures refused { self.new.refused ≤ self.old.refused + 1 }
    {
        let found = self.give(context, alloc, number, count)?;
        self.changes.clear();
        match found {
            Ok(lines) => Ok(lines),
            Err(refusal) => {
                self.refused += 1;
                StreamLine::RefusedBatch { number, refusal }.bytes(alloc)
            }
        }
    }

    /// Gives the open changes to the sink as the batch with this number, if the `end` row with this
    /// number and count is right. Returns the lines of an accepted batch, or the reason for a
    /// refusal. The changes stay open.
    fn give<C>(&mut self, context: &C, alloc: Global, number: u32, count: u32) -> BatchAnswer
    where
        S: Sink<C>,
        ensures accepted { IfOk result (λ found. IfOk found (λ lines. (all : List Changed)
            → AreOpen self.old.changes all
            → IsBatchTaken S.spec self.old.sink number count all lines.items self.new.sink)) }
        ensures refused { IfOk result (λ found. IfErr found (λ why. (all : List Changed)
            → AreOpen self.old.changes all
            → IsBatchDropped S.spec self.old.sink number count all why self.new.sink)) }
        ensures lost { OnErr result (self.new.sink ≡ self.old.sink) }
        ensures open { (all : List Changed) → AreOpen self.old.changes all
            → AreOpen self.new.changes all }
        ensures changes { self.new.changes.count ≡ self.old.changes.count }
        ensures answers { self.new.answers ≡ self.old.answers }
        ensures refusals { self.new.refused ≡ self.old.refused }
    {
        if let Some(refusal) = self.wrong_end::<C>(number, count) {
            return Ok(Err(refusal));
        }
        self.changes.batch.number = number;
        self.sink.accept(context, alloc, &self.changes.batch)
    }

    /// Why an `end` row with this number and count is refused before the sink gets its batch, or
    /// `None` if the `end` row is right.
    fn wrong_end<C>(&self, number: u32, count: u32) -> Option<BatchRefusal>
    where
        S: Sink<C>,
        ensures wrong { IfSome result (λ why.
            IsWrongFor S.spec self.now.sink number count self.now.changes.count why) }
        ensures right { IfNone result (
            IsRightFor S.spec self.now.sink number count self.now.changes.count) }
    {
        if self.sink.is_stopped() {
            return Some(BatchRefusal::Stopped);
        }
        if self.sink.version() >= MOST_VERSIONS {
            return Some(BatchRefusal::Exhausted);
        }
        let expected = self.sink.next_number();
        if number != expected {
            return Some(BatchRefusal::WrongNumber { expected });
        }
        let counted = self.changes.count;
        if u64::from(count) != counted {
            return Some(BatchRefusal::WrongCount { counted });
        }
        None
    }
}
