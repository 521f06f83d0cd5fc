//! How the next row of a journal changes the batch that is being read.

ghost use Rattle.std.specs.Prelude.{◌≡◌, ◌↔◌, IsTrue, IfOk, length};
ghost use Rattle.csv.specs.Records.{fields_of};
ghost use Rattle.cspf_rows.specs.Rows.{row_of};
ghost use Rattle.cspf_rows.specs.JournalReading.{IsTaken};

use crate::row::Row;
use crate::step::Step;
use cspf_model::Batch;
use csv::ByteRecord;
use std::alloc::AllocError;

/// What the next row of a journal means for the batch that is being read. The reader hasn't reached
/// the `end` row of this batch yet.
#[derive(Clone, Copy)]
pub(super) enum Taken {
    /// One more change of the batch.
    Change,
    /// The `end` row, which ends the batch.
    Batch,
    /// A row that is neither a change nor the `end` row of the batch.
    Behind,
}

/// Reads the next row of a journal, and returns what this row means for the batch with the number
/// `next`. `batch` has the changes of this batch so far. If the row is a change, it is appended to
/// these changes, and only then is memory allocated.
pub(super) fn take(fields: &ByteRecord, next: u32, batch: &mut Batch) -> Result<Taken, AllocError>
    ensures { IfOk result (IsTaken (row_of (fields_of fields.now)) next batch.old batch.new) }
{
    match Row::read(fields) {
        Ok(row) => take_row(&row, next, batch),
        Err(_) => Ok(Taken::Behind),
    }
}

/// As `take`, for a row that was already read from its fields.
#[tactic(auto, using(crate::proofs::RowsOfSteps::row_is))]
fn take_row(row: &Row, next: u32, batch: &mut Batch) -> Result<Taken, AllocError>
    ensures { IfOk result (IsTaken (Ok row.now) next batch.old batch.new) }
{
    match Step::of(row) {
        Step::Change(change) => {
            batch.changes.push(change)?;
            Ok(Taken::Change)
        }
        Step::End { number, count } if is_whole(batch, next, number, count) => {
            batch.number = next;
            Ok(Taken::Batch)
        }
        Step::End { .. } | Step::Ask(_) => Ok(Taken::Behind),
    }
}

/// Whether an `end` row with this number and this count ends the batch. The number has to be
/// `next`, and the batch has to have `count` changes.
fn is_whole(batch: &Batch, next: u32, number: u32, count: u32) -> bool
    ensures { IsTrue result ↔ ((number ≡ next) × (count ≡ length batch.now.changes)) }
{
    number == next && count as usize == batch.changes.len()
}
