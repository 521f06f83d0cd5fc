//! Publishes the book that a server begins with.

ghost use Rattle.std.specs.Prelude.{◌≡◌, ◌++◌, [], false, IfOk, OnOk};
ghost use Rattle.std.specs.Io.KnownBytes.{Appends};
ghost use Rattle.std.specs.List.{flat_map};
ghost use Rattle.cspf_book.specs.Effective.{effective};
ghost use Rattle.cspf_book.specs.OverLinks.{over};
ghost use Rattle.cspf_book_run.specs.BookLines.{over_line};
ghost use Rattle.cspf_model.specs.Changes.{changes_of};
ghost use Rattle.cspf_book_serve.specs.ServedBooks.{begin_lines};
ghost use Rattle.cspf_rows.specs.JournalLaws.{journal_text};
ghost use Rattle.cspf_snapshot.specs.Snapshots.{IsSnapshot};

use cspf_book::Book;
use cspf_book_run::write_over;
use cspf_model::Batch;
use cspf_publish::{ApplyError, Publisher};
use cspf_serve::RunError;
use cspf_snapshot::snapshot;
use std::alloc::{AllocError, Global};
use std::io::Write;
use std::sync::Wait;

/// Publishes the snapshot of the book's effective database as the first batches.
pub(crate) fn publish_begin<J: Write, T: Wait>(
    rt: &T,
    alloc: Global,
    book: &Book,
    publisher: &mut Publisher<J>,
) -> Result<(), RunError>
    requires fresh { (publisher.old.batches ≡ []) × (publisher.old.stopped ≡ false) }
    ensures made { OnOk result (IsSnapshot (effective book.now.base book.now.placements)
        publisher.new.batches) }
    ensures recorded { OnOk result (Appends (J.contents publisher.old.journal)
        (J.contents publisher.new.journal) (journal_text publisher.new.batches)) }
    ensures going { OnOk result (publisher.new.stopped ≡ false) }
    ensures source { publisher.new.source ≡ publisher.old.source }
{
    let making = snapshot(alloc, book.effective())?;
    publish_all(rt, alloc, making.as_slice(), publisher)
}

/// Publishes batches as the first ones, one after the other.
fn publish_all<J: Write, T: Wait>(
    rt: &T,
    alloc: Global,
    batches: &[Batch],
    publisher: &mut Publisher<J>,
) -> Result<(), RunError>
    requires fresh { (publisher.old.batches ≡ []) × (publisher.old.stopped ≡ false) }
    ensures made { OnOk result (publisher.new.batches ≡ batches.now) }
    ensures recorded { OnOk result (Appends (J.contents publisher.old.journal)
        (J.contents publisher.new.journal) (journal_text batches.now)) }
    ensures going { OnOk result (publisher.new.stopped ≡ false) }
    ensures source { publisher.new.source ≡ publisher.old.source }
{
    for batch in batches {
        if let Err(error) = publisher.apply(rt, alloc, batch) {
            return Err(run_error_of(error));
        }
    }
    Ok(())
}

/// Why a batch of a beginning isn't published. The batches are a snapshot, so each of them fits.
fn run_error_of(error: ApplyError) -> RunError {
    match error {
        ApplyError::Journal { .. } => RunError::Device,
        _ => RunError::Memory,
    }
}

/// The `over` lines of a beginning: one for each link and priority at which the placements count more
/// bandwidth than the link has.
pub(crate) fn over_lines(alloc: Global, book: &Book) -> Result<Vec<u8>, AllocError>
    ensures { IfOk result (λ lines. lines.items ≡ begin_lines book.now) }
{
    let making = snapshot(alloc, book.base())?;
    over_lines_of(alloc, book, making.as_slice())
}

/// The `over` lines for the links that batches put.
fn over_lines_of(alloc: Global, book: &Book, batches: &[Batch]) -> Result<Vec<u8>, AllocError>
    ensures { IfOk result (λ lines. lines.items
        ≡ flat_map over_line (over book.now.placements (changes_of batches.now))) }
{
    let mut lines = Vec::new(alloc);
    for batch in batches {
        let over = book.over(alloc, batch)?;
        write_over(alloc, &mut lines, &over)?;
    }
    Ok(lines)
}
