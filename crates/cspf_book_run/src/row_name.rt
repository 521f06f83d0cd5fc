//! The lines that refuse rows of a server's book at which memory is refused.

ghost use Rattle.std.specs.Prelude.{◌≡◌, IfOk};
ghost use Rattle.cspf_book_run.specs.OutOfMemory.{base_name_of, is_batch_name, memory_line, row_name_of};

use crate::book_row::BookRow;
use crate::book_row_error::{BookRowError, refused_book_row};
use crate::held_refusal::HeldRefusal;
use crate::line::{TextResult, refused_place, refused_release};
use crate::placement_line::{refused_held, refused_offer};
use crate::refusals::{PlaceRefusal, ReleaseRefusal};
use cspf_rows::Row;
use cspf_stream::{BatchRefusal, StreamLine};
use std::alloc::Global;

/// What a row is called in the line that refuses it if memory is refused at the row.
#[derive(Clone, Copy, Debug, PartialEq, Eq)]
pub enum RowName {
    /// The row is called by its number. It is no end row, and not about a placement, or memory was
    /// refused before its fields were read.
    Row,
    /// The row is the end row of the batch with this number.
    Batch {
        /// The number of the batch.
        number: u32,
    },
    /// The row places the request with this id.
    Place {
        /// The id of the request.
        id: u64,
    },
    /// The row releases the placement with this id.
    Release {
        /// The id of the placement.
        id: u64,
    },
    /// The row restores the placement with this id.
    Held {
        /// The id of the placement.
        id: u64,
    },
    /// The row asks what a `place` row with this id would answer.
    Offer {
        /// The id of the request.
        id: u64,
    },
}

impl RowName {
    /// The name of a row whose fields were read.
    pub(crate) fn of(row: &BookRow) -> RowName
        ensures { result ≡ row_name_of row.now }
    {
        match row {
            BookRow::Base(base) => RowName::of_base(base),
            BookRow::Place { request, hold: _ } => RowName::Place { id: request.id },
            BookRow::Release { id } => RowName::Release { id: *id },
            BookRow::Held { placement } => RowName::Held {
                id: placement.request.id,
            },
            BookRow::Offer { request, hold: _ } => RowName::Offer { id: request.id },
            BookRow::Show { id: _ } => RowName::Row,
            BookRow::Left { from: _, local: _ } => RowName::Row,
        }
    }

    /// The name of a row of the base.
    fn of_base(row: &Row) -> RowName
        ensures { result ≡ base_name_of row.now }
    {
        match row {
            Row::End { number, count: _ } => RowName::Batch { number: *number },
            _ => RowName::Row,
        }
    }

    /// Whether the row is an end row.
    pub(crate) fn is_batch(self) -> bool
        ensures { result ≡ is_batch_name self }
    {
        match self {
            RowName::Batch { number: _ } => true,
            _ => false,
        }
    }

    /// The line that refuses the row by `memory`. `place` is the number of the row, counted from 1.
    pub(crate) fn refusal(self, alloc: Global, place: u64) -> TextResult
        ensures { IfOk result (λ line. line.items ≡ memory_line place self) }
    {
        match self {
            RowName::Row => refused_book_row(alloc, place, BookRowError::Memory),
            RowName::Batch { number } => {
                let refusal = BatchRefusal::Memory;
                StreamLine::RefusedBatch { number, refusal }.bytes(alloc)
            }
            RowName::Place { id } => refused_place(alloc, id, PlaceRefusal::Memory),
            RowName::Release { id } => refused_release(alloc, id, ReleaseRefusal::Memory),
            RowName::Held { id } => refused_held(alloc, id, HeldRefusal::Memory),
            RowName::Offer { id } => refused_offer(alloc, id, PlaceRefusal::Memory),
        }
    }
}
