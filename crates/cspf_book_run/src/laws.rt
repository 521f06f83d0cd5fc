//! Laws that follow from the definitions of `specs/` alone. Each function here does nothing: its
//! contract is the law.
ghost use Rattle.cspf_book_run.specs.BookScript.{book_start};
ghost use Rattle.cspf_book_run.specs.BookScriptLaws.{BooksHaveOneReply, IsBookCovered, IsBookInRange, RowsCoverSince, BaseLinesAreExact, OnlyChangersSayOver, RowsKeepRange};
ghost use Rattle.cspf_book_run.specs.Compacts.{CompactsMakeBooks};
ghost use Rattle.cspf_book_run.specs.KeptLaws.{KeptBehindIsTheBook, KeptIsTheBook, KeptRunIsTheBook, RunsStopOnce};
ghost use Rattle.cspf_book_run.specs.WrongRuns.{WeakerLawsFollow, ExcuseEndsWithCover, OtherLinkIsNoExcuse, OtherPriorityIsNoExcuse, UntrueOverIsRefused};

use crate::held_row::held_rows_are_read_back;
use cspf_addr::{addresses_are_spelled_once, masks_are_spelled};
use cspf_ero::one_reply_line;
use cspf_model::{one_best_answer, one_refusal};
use cspf_rows::{rows_are_read, rows_are_read_back};

/// Law: the rows of a run determine its lines. Two runs over the same rows write the same lines and
/// have the same summary, if no write to `keep` fails in them. If one fails in each of them, and
/// both have written the same number of bytes to `keep`, they also write the same lines.
pub fn one_reply_of_books()
    ensures { BooksHaveOneReply }
{
    // Laws: a request has at most one best answer, an answer has one reply line, and a batch is
    // refused for at most one reason.
    one_best_answer();
    one_reply_line();
    one_refusal();
}

/// Law: each link stays covered, or its `over` line is written. A link is covered at a priority if
/// the placements count at most its unreserved bandwidth at this priority. At the start, each link
/// is covered. Suppose that a link is covered in some state, or isn't in the base in this state.
/// After any further rows, the link is covered, or the lines of these rows include its `over` line.
/// A base batch has the `over` line of a link and a priority exactly if it sets this link with too
/// little bandwidth at this priority. Apart from base batches, only a row that restores a placement
/// has an `over` line.
pub fn covered_books()
    ensures start { IsBookCovered book_start.book }
    ensures since { RowsCoverSince }
    ensures exact { BaseLinesAreExact }
    ensures only { OnlyChangersSayOver }
{
    // Law: a covered link stays covered when a request is placed or a placement is released. When
    // the base changes, a covered link stays covered, or is in the list `over`. When a placement is
    // restored, it stays covered, or is in the list `made_over`. Law: no two addresses have the same
    // text.
    cspf_book::covered_links();
    addresses_are_spelled_once();
}

/// Law: as long as no placement is restored, the bandwidth that the placements count on a link's key
/// at a priority is below 2^64. So this sum would fit into a `u64`, which is the type of the base's
/// bandwidths. This is true even if base batches lower the bandwidth of links below what the
/// placements hold. A restored placement isn't compared with the base, so it may count more.
pub fn sums_stay_small()
    ensures start { IsBookInRange book_start }
    ensures kept { RowsKeepRange }
{
    // Law: a record is read as a row exactly if the record says this row (`Says`).
    rows_are_read();
}

/// Four wrong runs show what `covered_books` adds to two weaker laws. The weaker laws follow from
/// `covered_books` and allow each of these runs, but `covered_books` refuses them. In three of the
/// runs, a link isn't covered at the end: it has too little bandwidth for the placements. Its
/// `over` line was written too early, or the last `over` lines name another link, or only another
/// priority. In the fourth run, an `over` line isn't true.
pub fn worked_covers()
    ensures weaker { WeakerLawsFollow }
    ensures ended { ExcuseEndsWithCover }
    ensures link { OtherLinkIsNoExcuse }
    ensures priority { OtherPriorityIsNoExcuse }
    ensures untrue { UntrueOverIsRefused }
{
    // Law: no two addresses have the same text.
    addresses_are_spelled_once();
}

/// Law: a write to `keep` fails at no row of a run, or at one row. This row is refused, and each
/// later row that could change the book. So the book is then as it was before the row.
pub fn runs_stop_once()
    ensures { RunsStopOnce }
{}

/// Law: the texts of accepted rows, which a run writes to `keep`, restore the book. A run over
/// these texts ends with the same base, version and placements as the run over the rows. The run
/// over the texts refuses no row, and at its end no changes are open. The texts have at most as
/// many rows as were answered. If a write to `keep` has failed, this is true of what was written to
/// it before the row at which it failed. The same is true of a run that goes on with the book of
/// earlier rows: a run over the earlier rows and the texts ends with its book.
pub fn kept_is_the_book()
    ensures behind { KeptBehindIsTheBook }
    ensures whole { KeptIsTheBook }
    ensures run { KeptRunIsTheBook }
{
    // Law: a record is read as a row exactly if the record says this row (`Says`). Law: the record
    // that is written for a row is read as this row. Law: the text of a mask is read as this mask.
    rows_are_read();
    rows_are_read_back();
    masks_are_spelled();
}

/// Law: the compact stream of a book makes its base and its placements.
pub fn compacts_make_books()
    ensures { CompactsMakeBooks }
{
    // Laws: the record that is written for a row is read as this row, the text of a mask is read as
    // this mask, and the `held` row of a placement is read as this placement. The placements of a
    // book may be restored in their order.
    rows_are_read_back();
    masks_are_spelled();
    held_rows_are_read_back();
    cspf_book::compact_is_the_book();
}
