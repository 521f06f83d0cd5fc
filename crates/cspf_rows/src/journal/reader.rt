//! Reads a journal batch by batch. Needs memory for one batch at a time.

ghost use Rattle.std.specs.Prelude.{◌≡◌, ◌≢◌, ◌⊎◌, ◌+◌, ◌<◌, ◌≤◌, ◌∷◌, ◌++◌, ℕ, List, Option, Some, [], true, false, length, IfOk, IfSome, IfNone, OnOk};
ghost use Rattle.std.specs.Option.{option_map};
ghost use Rattle.csv.specs.Records.{fields_of};
ghost use Rattle.cspf_model.specs.declared.batch.Change.{Change as Changed};
ghost use Rattle.cspf_model.specs.Numbered.{NumberedChanges};
ghost use Rattle.cspf_rows.specs.declared.journal.Rest.{Rest as WhatIsLeft};
ghost use Rattle.cspf_rows.specs.declared.journal.Rest.TheVariants.{Torn as IsTorn};
ghost use Rattle.cspf_rows.specs.Records.{rows_of, rows_left, Takes};
ghost use Rattle.cspf_rows.specs.Journal.{IsJournal};

use crate::journal::taken_row::{Taken, take};
use crate::journal::{JournalStep, Rest};
use crate::limits::MOST_ROWS;
use crate::read_error::ReadError;
use crate::records::{next_record, open_records};
use cspf_model::{Batch, Change};
use csv::{ByteRecord, Reader};
use std::alloc::Global;
use std::io::Read;

/// Reads the batches of a journal, one after the other. The reader doesn't keep the batches.
#[derive(Drop)]
pub struct JournalReader<R> {
    records: Reader<R>,
    /// The fields of the row that was read last.
    fields: ByteRecord,
    /// How many rows of the journal were read.
    rows: u32,
    /// How many whole batches were read.
    count: u32,
}

impl<R: Read> JournalReader<R> {
    ghost use Rattle.cspf_rows.specs.GivenBatches.{CanRead, HasGiven, HasFailed, rows_read};
    ghost use Rattle.cspf_rows.specs.JournalReading.{HasRead, ComesTo};

    /// A reader of a journal that has read no row yet.
    pub fn new(alloc: Global, reader: R) -> Self
        ensures can { CanRead result }
        ensures none { HasGiven R.remaining (option_map rows_of (R.remaining reader)) result [] }
    {
        JournalReader {
            records: open_records(alloc, reader),
            fields: ByteRecord::new(alloc),
            rows: 0,
            count: 0,
        }
    }

    /// Reads the next whole batch into `batch`, or finds that no batch is left. The memory of
    /// `batch` is used again. After the last batch, the stream is read to its last row, and these
    /// rows need no memory. A stream of more than `MOST_ROWS` rows is refused as `TooManyRows`.
    /// Don't call this function again after it has returned `End` or an error.
    pub fn read_batch(&mut self, batch: &mut Batch) -> Result<JournalStep, ReadError>
        requires { CanRead self.old }
        ensures can { result ≡ Ok JournalStep.Batch → CanRead self.new }
        ensures more { result ≡ Ok JournalStep.Batch → (rows_read self.old < rows_read self.new)
            × (rows_read self.new ≤ MOST_ROWS) }
        ensures batch { result ≡ Ok JournalStep.Batch
            → (all : Option (List (List (List ℕ)))) (given : List NumberedChanges)
            → HasGiven R.remaining all self.old given
            → HasGiven R.remaining all self.new (given ++ batch.new ∷ []) }
        ensures end { (rest : WhatIsLeft) → result ≡ Ok (JournalStep.End rest)
            → (all : Option (List (List (List ℕ)))) (given : List NumberedChanges)
            → HasGiven R.remaining all self.old given
            → IfSome all (λ rows. IsJournal rows given rest × (length rows ≤ MOST_ROWS)) }
        ensures too_many { result ≡ Err ReadError.TooManyRows
            → (all : Option (List (List (List ℕ)))) (given : List NumberedChanges)
            → HasGiven R.remaining all self.old given
            → IfSome all (λ rows. MOST_ROWS < length rows) }
        ensures device { result ≡ Err ReadError.Device → HasFailed self.new }
    {
        batch.changes.clear();
        loop {
            if let Some(step) = self.take_row(batch)? {
                return Ok(step);
            }
        }
    }

    /// Reads the row after the changes that `batch` has so far. If the row is a change, it is
    /// appended to `batch`, and the result is `None`. Otherwise the result is `Batch` or `End`.
    fn take_row(&mut self, batch: &mut Batch) -> Result<Option<JournalStep>, ReadError>
        requires { CanRead self.old }
        ensures can { (result ≡ Ok None) ⊎ (result ≡ Ok (Some JournalStep.Batch))
            → CanRead self.new × (rows_read self.new ≡ rows_read self.old + 1) }
        ensures none { IfOk result (λ found. IfNone found
            ((all : Option (List (List (List ℕ)))) (given : List NumberedChanges)
            → HasRead R.remaining all self.old given batch.old.changes false
            → HasRead R.remaining all self.new given batch.new.changes false)) }
        ensures some { IfOk result (λ found. IfSome found (λ step.
            (all : Option (List (List (List ℕ)))) (given : List NumberedChanges)
            → HasRead R.remaining all self.old given batch.old.changes false
            → ComesTo R.remaining all self.new given batch.new step)) }
        ensures too_many { result ≡ Err ReadError.TooManyRows
            → (all : Option (List (List (List ℕ)))) (given : List NumberedChanges)
            → HasRead R.remaining all self.old given batch.old.changes false
            → IfSome all (λ rows. MOST_ROWS < length rows) }
        ensures device { result ≡ Err ReadError.Device → HasFailed self.new }
    {
        if !self.next_row()? {
            return Ok(Some(JournalStep::End(rest_of(&batch.changes))));
        }
        match take(&self.fields, self.count + 1, batch)? {
            Taken::Change => Ok(None),
            Taken::Batch => {
                self.count += 1;
                Ok(Some(JournalStep::Batch))
            }
            Taken::Behind => {
                self.skip_rest()?;
                Ok(Some(JournalStep::End(Rest::Torn)))
            }
        }
    }

    /// Reads all rows that follow a row that is in no batch. The rows aren't kept.
    fn skip_rest(&mut self) -> Result<(), ReadError>
        requires { CanRead self.old }
        ensures end { OnOk result ((all : Option (List (List (List ℕ))))
            (given : List NumberedChanges) (changes : List Changed)
            → HasRead R.remaining all self.old given changes true
            → IfSome all (λ rows. IsJournal rows given IsTorn × (length rows ≤ MOST_ROWS))) }
        ensures too_many { result ≡ Err ReadError.TooManyRows
            → (all : Option (List (List (List ℕ)))) (given : List NumberedChanges)
            (changes : List Changed) → HasRead R.remaining all self.old given changes true
            → IfSome all (λ rows. MOST_ROWS < length rows) }
        ensures device { result ≡ Err ReadError.Device → HasFailed self.new }
    {
        while self.next_row()? {}
        Ok(())
    }

    /// Reads the fields of the next row, and returns whether there was a next row.
    fn next_row(&mut self) -> Result<bool, ReadError>
        requires { CanRead self.old }
        ensures row { IfOk result (λ found. Takes (rows_left R.remaining self.old.records)
            (rows_left R.remaining self.new.records) found (fields_of self.new.fields)) }
        ensures can { result ≡ Ok true → CanRead self.new }
        ensures rows { result ≡ Ok true → rows_read self.new ≡ rows_read self.old + 1 }
        ensures count { self.new.count ≡ self.old.count }
        ensures too_many { result ≡ Err ReadError.TooManyRows → (rows_read self.old ≡ MOST_ROWS)
            × Takes (rows_left R.remaining self.old.records)
            (rows_left R.remaining self.new.records) true (fields_of self.new.fields) }
        ensures device { result ≡ Err ReadError.Device → HasFailed self.new }
    {
        if !next_record(&mut self.records, &mut self.fields)? {
            return Ok(false);
        }
        if self.rows >= MOST_ROWS {
            return Err(ReadError::TooManyRows);
        }
        self.rows += 1;
        Ok(true)
    }
}

/// Whether rows follow the last whole batch of a journal. The journal ends after the changes
/// `changes`, which have no `end` row.
fn rest_of(changes: &[Change]) -> Rest
    ensures clean { result ≡ Rest.Clean → changes.now ≡ [] }
    ensures torn { result ≡ Rest.Torn → changes.now ≢ [] }
{
    if changes.is_empty() {
        Rest::Clean
    } else {
        Rest::Torn
    }
}
