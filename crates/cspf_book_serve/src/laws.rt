//! Laws that follow from the definitions of `specs/` alone. Each function here does nothing: its
//! contract is the law.
ghost use Rattle.cspf_book_serve.specs.ServedBookLaws.{BeginningsSayOver, PublishedBooksAreCovered, ServedBookRepliesAreFresh, ServedKeptIsTheBook, ServedRowsCoverSince};
ghost use Rattle.cspf_book_serve.specs.ServedBooks.{RowsShowBooks};

use cspf_book_run::kept_is_the_book;
use cspf_client::Reopens;

/// Law: rows keep that the last published version is the version of the book, and that its database is
/// the effective database of the book. So each published version's database is the effective
/// database of the book after the accepted rows up to it.
pub fn published_books()
    ensures { RowsShowBooks }
{}

/// Law: at each published version, on each link and at each priority, the placements count at most
/// the link's unreserved bandwidth, or an `over` line was written. A link that isn't covered at the
/// beginning has an `over` line there. A covered link stays covered, or its `over` line is among the
/// lines of the rows that are answered next. This is true even if a write fails.
pub fn published_books_are_covered()
    ensures begin { BeginningsSayOver }
    ensures since { ServedRowsCoverSince }
    ensures published { PublishedBooksAreCovered }
{
    // Law: a covered link stays covered when a request is placed or a placement is released. When
    // the base changes, a covered link stays covered, or is in the list `over`. When a placement is
    // restored, it stays covered, or is in the list `made_over`.
    cspf_book::covered_links();
}

/// Law: the rows with which a run began, and then the texts of its accepted rows, which it writes to
/// `keep`, restore its book. If a write to `keep` failed, this is true of what was written to it
/// before the row at which it failed. If a write to the journal failed, it is also true of the whole
/// text of this row, and of the book that the row would have made.
pub fn served_kept_is_the_book()
    ensures { ServedKeptIsTheBook }
{
    // Law: a run over earlier rows, and then over the texts of the accepted rows of a run that went
    // on with their book, ends with the same book.
    kept_is_the_book();
}

/// Law: in a run of a server with a book, the version of each reply to a client is at least the number
/// of batches that were published before the request's row was read. This is seen from the list of the
/// journal's steps that the run returns.
pub fn served_book_replies_are_fresh<W, J, K, Q, V: Reopens<Q>>()
    ensures { ServedBookRepliesAreFresh W J K V.reopens }
{}
