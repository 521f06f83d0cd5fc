//! The text of the compact stream of rows that makes a book: a snapshot of its base, and then the
//! `held` row of each placement.

ghost use Rattle.std.specs.Prelude.{◌≡◌, IfOk};
ghost use Rattle.std.specs.List.{flat_map, AllByRecursion};
ghost use Rattle.cspf_rows.specs.JournalLaws.{journal_text};
ghost use Rattle.cspf_book_run.specs.Compacts.{IsCompact};
ghost use Rattle.cspf_book_run.specs.HeldRows.{held_text, IsPlacementInRange};

use crate::held_row::held_row_text;
use crate::line::TextResult;
use crate::ranges::batches_in_range;
use cspf_book::{Book, Placement};
use cspf_model::Batch;
use cspf_rows::batch_text;
use cspf_snapshot::snapshot;
use std::alloc::Global;

/// The rows of the compact stream that makes the base and the placements of a book, each with its
/// line feed. Memory for the whole text is taken at once.
pub(crate) fn compact_text(alloc: Global, book: &Book) -> TextResult
    ensures { IfOk result (λ text. IsCompact book.now.base book.now.placements text.items) }
{
    let making = snapshot(alloc, book.base())?;
    batches_in_range(&making);
    let mut text = batches_text(alloc, &making)?;
    let held = placements_text(alloc, book.placements())?;
    text.extend_from_slice(held.as_slice())?;
    Ok(text)
}

/// The texts of batches, one after the other.
fn batches_text(alloc: Global, batches: &[Batch]) -> TextResult
    ensures { IfOk result (λ text. text.items ≡ journal_text batches.now) }
{
    let mut text = Vec::new(alloc);
    for batch in batches {
        let one = batch_text(alloc, batch)?;
        text.extend_from_slice(one.as_slice())?;
    }
    Ok(text)
}

/// The `held` rows of placements, one after the other.
fn placements_text(alloc: Global, placements: &[Placement]) -> TextResult
    ensures { IfOk result (λ text. text.items ≡ flat_map held_text placements.now) }
{
    let mut text = Vec::new(alloc);
    for placement in placements {
        let one = held_row_text(alloc, placement)?;
        text.extend_from_slice(one.as_slice())?;
    }
    Ok(text)
}
