//! The state of a run of a book: the rows of its base, with the book as their sink, and how many
//! rows were read. Each row is answered from this state. Rows about placements go to the book.

ghost use Rattle.std.specs.Prelude.{◌≡◌, ◌+◌, ◌^◌, ◌<◌, ◌≤◌, nat_lt, [], false, cond, IfOk, Ok, OnOk, OnErr};
ghost use Rattle.csv.specs.Records.{fields_of};
ghost use Rattle.cspf_book_run.specs.OutOfMemory.{name_as_read};

use crate::book_row::BookRow;
use crate::book_row_error::{BookRowError, refused_book_row};
use crate::book_sink::BookSink;
use crate::keeper::{Keeps, KeepsNothing};
use crate::line::{TextResult, refused_place, refused_release};
use crate::placement_line::{
    left_line, refused_held, refused_left, refused_offer, refused_show, show_line,
};
use crate::row_name::RowName;
use crate::row_text::row_text;
use cspf_addr::Addr;
use cspf_book::{Book, Placement};
use cspf_model::{Request, one_refusal};
use cspf_solve::Summary;
use cspf_stream::{Answering, Ending, Rows, Step};
use csv::ByteRecord;
use std::alloc::{AllocError, Global};

/// The state of a run between two rows. Only the memory of the book grows with the number of rows.
#[derive(Drop)]
pub struct BookRows<S> {
    /// The book with what keeps the texts of accepted rows, the open changes, and two counts.
    /// `answers` counts the answers to `ask`, `place` and `offer` rows together. `refused` counts the
    /// refusals of rows that couldn't be read, of batches, and of rows about placements.
    pub rows: Rows<BookSink<S>>,
    /// How many rows were read.
    pub read: u64,
}

impl<C, S: Keeps<C>> Answering<C> for BookRows<S> {
    type Fault = AllocError;

    ghost use Rattle.cspf_book_run.specs.BookStates.{IsBookBefore};
    ghost use Rattle.cspf_book_run.specs.KeptStates.{IsBookAnswer, IsBookAnswerLost};

    ghost answers = { IsBookAnswer S.spec };

    ghost fails = { λ fault. IsBookAnswerLost S.spec };

    // Each row adds at most 1 to each count of the run.
    ghost may_stand = { IsBookBefore };

    fn answer(
        &mut self,
        context: &C,
        alloc: Global,
        place: u64,
        fields: &ByteRecord,
    ) -> Result<Vec<u8>, AllocError> {
        let row = BookRow::read(alloc, fields)?;
        self.read += 1;
        self.line_of(context, alloc, place, fields, row)
    }
}

impl<S> Ending for BookRows<S> {
    ghost use Rattle.cspf_book_run.specs.KeptStates.{IsBookLast};

    ghost last = { IsBookLast };

    fn last_line(&self, alloc: Global, too_many: bool) -> Result<Vec<u8>, AllocError> {
        self.rows.last_line(alloc, too_many)
    }
}

impl<S> BookRows<S> {
    ghost use Rattle.cspf_model.specs.Changes.{no_links};
    ghost use Rattle.cspf_book_run.specs.BookScript.{BookRunState, book_start, book_summary_of};
    ghost use Rattle.cspf_book_run.specs.BookStates.{KeepsBook, AreBookCounts};

    /// The state before the first row: version 0, the empty base, no placements and no open
    /// changes. `keeping` keeps the texts of accepted rows.
    pub(crate) fn new(alloc: Global, book: Book, keeping: S) -> BookRows<S>
        requires { book ≡ record { base = no_links; version = 0; placements = [] } }
        ensures start { KeepsBook result.rows book_start }
        ensures none { result.read ≡ 0 }
        ensures keeping { result.rows.sink.keeping ≡ keeping }
    {
        BookRows {
            rows: Rows::new(alloc, BookSink::new(alloc, book, keeping)),
            read: 0,
        }
    }

    /// The summary of a run that ends after the rows that were read so far.
    pub(crate) fn summary(&self, too_many: bool) -> Summary
        requires { AreBookCounts self.now }
        ensures { (s : BookRunState) → KeepsBook self.now.rows s
            → result ≡ book_summary_of self.now.read s too_many }
    {
        let unended = !too_many && self.rows.changes.count > 0;
        Summary {
            rows: self.read as u32,
            version: self.rows.sink.named(),
            answers: self.rows.answers as u32,
            refused: self.rows.refused as u32 + u32::from(unended),
            too_many,
        }
    }

    /// The book, in its state after the last row.
    pub fn book(&self) -> &Book
        ensures { result.now ≡ self.now.rows.sink.book }
    {
        self.rows.sink.book()
    }

    /// Whether a row was refused.
    pub fn has_refused(&self) -> bool
        ensures { result ≡ nat_lt 0 self.now.rows.refused }
    {
        self.rows.refused > 0
    }

    /// Whether changes are open.
    pub fn has_open(&self) -> bool
        ensures { result ≡ nat_lt 0 self.now.rows.changes.count }
    {
        self.rows.changes.count > 0
    }

    /// What keeps the texts of accepted rows, in its state after the last call.
    pub fn into_keeping(self) -> S
        ensures { result ≡ self.rows.sink.keeping }
    {
        let BookRows { rows, read: _ } = self;
        let Rows {
            sink,
            changes: _,
            answers: _,
            refused: _,
        } = rows;
        sink.into_keeping()
    }
}

impl BookRows<KeepsNothing> {
    ghost use Rattle.cspf_book_run.specs.BookScript.{BookRunState, going_on};
    ghost use Rattle.cspf_book_run.specs.BookStates.{KeepsBook};

    /// The state before the first row of a run that goes on with the same book, and whose accepted rows
    /// `keeping` keeps. The first `skipped` versions of the book aren't counted where lines name a
    /// version. No change is open, and nothing was answered or refused.
    pub fn going_on<T>(self, alloc: Global, keeping: T, skipped: u32) -> BookRows<T>
        requires { skipped ≤ self.rows.sink.book.version }
        ensures state { (s : BookRunState) → KeepsBook self.rows s
            → KeepsBook result.rows (going_on s skipped) }
        ensures none { result.read ≡ 0 }
        ensures keeping { result.rows.sink.keeping ≡ keeping }
    {
        let BookRows { rows, read: _ } = self;
        let Rows {
            sink,
            changes: _,
            answers: _,
            refused: _,
        } = rows;
        BookRows {
            rows: Rows::new(alloc, sink.going_on(alloc, keeping, skipped)),
            read: 0,
        }
    }
}

impl<S> BookRows<S> {
    ghost use Rattle.std.specs.Prelude.{ℕ, List};
    ghost use Rattle.cspf_book.specs.PlacedRoutes.{ConnectsItsEnds};
    ghost use Rattle.cspf_book_run.specs.declared.book_row.BookRow.TheVariants as book_row;
    ghost use Rattle.cspf_stream.specs.RowCounts.{CanCountOneMore, GrowsByOneAtMost};
    ghost use Rattle.cspf_book_run.specs.BookStates.{IsBookBefore, IsReadable, BookLeads};
    ghost use Rattle.cspf_book_run.specs.KeptStates.{IsRowDone, IsAnsweredDone, IsAnsweredLost, IsAnsweredOrOut, IsBookAnswerLost, IsBookAnswerOrOut};
    ghost use Rattle.cspf_book_run.specs.OutOfMemory.{is_batch_name, memory_line};
    ghost use Rattle.cspf_model.specs.declared.batch.Change.{Change as Changed};
    ghost use Rattle.cspf_stream.specs.OpenChanges.{AreOpen};

    /// Answers row `place`, counted from 1, as `answer` does. But if memory is refused, the row is
    /// refused by `memory`, the book is unchanged, and the same row may come again. As with each
    /// refused batch, the open changes are dropped if it is an end row. Returns an error if memory is
    /// also refused for the line that refuses the row.
    pub fn answer_or_refuse<C>(
        &mut self,
        context: &C,
        alloc: Global,
        place: u64,
        fields: &ByteRecord,
    ) -> Result<Vec<u8>, AllocError>
    where
        S: Keeps<C>,
        requires { IsBookBefore place self.old }
        ensures answered { IfOk result (λ line. IsBookAnswerOrOut S.spec place self.old
            (fields_of fields.now) line.items self.new) }
        ensures state { OnOk result (IsBookBefore (place + 1) self.new) }
        ensures lost { OnErr result (IsBookAnswerLost S.spec place self.old
            (fields_of fields.now) self.new) }
    {
        self.read += 1;
        match BookRow::read(alloc, fields) {
            Ok(row) => self.line_or_refusal(context, alloc, place, fields, row),
            Err(_refused) => {
                let refused = self.rows.refused;
                self.refuse(alloc, place, RowName::Row, refused)
            }
        }
    }

    /// Answers a row, or refuses it by `memory`. `row` is how the fields are read.
    fn line_or_refusal<C>(
        &mut self,
        context: &C,
        alloc: Global,
        place: u64,
        fields: &ByteRecord,
        row: Result<BookRow, BookRowError>,
    ) -> TextResult
    where
        S: Keeps<C>,
        requires few { CanCountOneMore self.old.rows }
        requires row { IfOk row IsReadable }
        ensures answered { IfOk result (λ line. BookLeads self.old.rows self.new.rows
            (λ s t. IsAnsweredOrOut S.spec place s (fields_of fields.now) row line.items t
            self.old.rows.sink.keeping self.new.rows.sink.keeping)) }
        ensures lost { OnErr result (IsAnsweredLost S.spec (fields_of fields.now) row
            self.old.rows self.new.rows) }
        ensures counts { GrowsByOneAtMost self.old.rows self.new.rows }
        ensures read { self.new.read ≡ self.old.read }
    {
        let (name, refused) = (name_of(&row), self.rows.refused);
        match self.line_of(context, alloc, place, fields, row) {
            Ok(line) => Ok(line),
            Err(_refused) => self.refuse(alloc, place, name, refused),
        }
    }

    /// Refuses the row with this name by `memory`. `refused` is how many refusals there were before
    /// the row.
    fn refuse(&mut self, alloc: Global, place: u64, name: RowName, refused: u64) -> TextResult
        requires { refused + 1 < 2 ^ 64 }
        ensures line { IfOk result (λ line. line.items ≡ memory_line place name) }
        ensures open { OnOk result ((all : List Changed) → AreOpen self.old.rows.changes all
            → AreOpen self.new.rows.changes (cond (is_batch_name name) [] all)) }
        ensures few { self.new.rows.changes.count ≤ self.old.rows.changes.count }
        ensures refused { OnOk result (self.new.rows.refused ≡ refused + 1) }
        ensures sink { self.new.rows.sink ≡ self.old.rows.sink }
        ensures answers { self.new.rows.answers ≡ self.old.rows.answers }
        ensures read { self.new.read ≡ self.old.read }
        ensures lost { OnErr result (self.new ≡ self.old) }
    {
        let line = name.refusal(alloc, place)?;
        if name.is_batch() {
            self.rows.changes.clear();
        }
        self.rows.refused = refused + 1;
        Ok(line)
    }

    /// Answers row `place`, counted from 1, and returns the lines of the answer. A change is
    /// answered with no lines. `row` is how the fields are read.
    fn line_of<C>(
        &mut self,
        context: &C,
        alloc: Global,
        place: u64,
        fields: &ByteRecord,
        row: Result<BookRow, BookRowError>,
    ) -> TextResult
    where
        S: Keeps<C>,
        requires few { CanCountOneMore self.old.rows }
        requires row { IfOk row IsReadable }
        ensures answered { IfOk result (λ line. BookLeads self.old.rows self.new.rows
            (λ s t. IsAnsweredDone S.spec place s (fields_of fields.now) row line.items t
            self.old.rows.sink.keeping self.new.rows.sink.keeping)) }
        ensures lost { OnErr result (IsAnsweredLost S.spec (fields_of fields.now) row
            self.old.rows self.new.rows) }
        ensures counts { GrowsByOneAtMost self.old.rows self.new.rows }
        ensures read { self.new.read ≡ self.old.read }
    {
        match row {
            Ok(row) => self.take_row(context, alloc, fields, row),
            Err(error) => {
                let line = refused_book_row(alloc, place, error)?;
                self.rows.refused += 1;
                Ok(line)
            }
        }
    }

    /// Answers a row whose fields could be read, and returns the lines of the answer.
    fn take_row<C>(
        &mut self,
        context: &C,
        alloc: Global,
        fields: &ByteRecord,
        row: BookRow,
    ) -> TextResult
    where
        S: Keeps<C>,
        requires few { CanCountOneMore self.old.rows }
        requires row { IsReadable row }
        ensures answered { IfOk result (λ line. BookLeads self.old.rows self.new.rows
            (λ s t. IsRowDone S.spec s (fields_of fields.now) row line.items t
            self.old.rows.sink.keeping self.new.rows.sink.keeping)) }
        ensures lost { OnErr result (IsAnsweredLost S.spec (fields_of fields.now) (Ok row)
            self.old.rows self.new.rows) }
        ensures counts { GrowsByOneAtMost self.old.rows self.new.rows }
        ensures read { self.new.read ≡ self.old.read }
    {
        // Law: a batch that the table refuses doesn't fit.
        one_refusal();
        match row {
            BookRow::Base(row) => self.rows.take(context, alloc, Step::of(&row)),
            BookRow::Place { request, hold } => self.place(context, alloc, fields, &request, hold),
            BookRow::Release { id } => self.release(context, alloc, fields, id),
            BookRow::Held { placement } => self.restore(context, alloc, fields, placement),
            BookRow::Offer { request, hold } => self.offer::<C>(alloc, &request, hold),
            BookRow::Show { id } => self.show::<C>(alloc, id),
            BookRow::Left { from, local } => self.left::<C>(alloc, from, local),
        }
    }

    /// Places a request with the holding priority `hold`, or refuses the `place` row.
    fn place<C>(
        &mut self,
        context: &C,
        alloc: Global,
        fields: &ByteRecord,
        request: &Request,
        hold: u8,
    ) -> TextResult
    where
        S: Keeps<C>,
        requires few { CanCountOneMore self.old.rows }
        requires setup { request.now.setup ≡ 7 }
        requires hold { hold < 8 }
        ensures answered { IfOk result (λ line. BookLeads self.old.rows self.new.rows
            (λ s t. IsRowDone S.spec s (fields_of fields.now) (book_row.Place request.now hold)
            line.items t self.old.rows.sink.keeping self.new.rows.sink.keeping)) }
        ensures lost { OnErr result (IsAnsweredLost S.spec (fields_of fields.now)
            (Ok (book_row.Place request.now hold)) self.old.rows self.new.rows) }
        ensures counts { GrowsByOneAtMost self.old.rows self.new.rows }
        ensures read { self.new.read ≡ self.old.read }
    {
        let text = row_text(alloc, fields)?;
        let found = self.rows.sink.place(context, alloc, text, request, hold)?;
        match found {
            Ok(line) => {
                self.rows.answers += 1;
                Ok(line)
            }
            Err(why) => {
                let line = refused_place(alloc, request.id, why)?;
                self.rows.refused += 1;
                Ok(line)
            }
        }
    }

    /// Releases the placement with this id, or refuses the `release` row.
    fn release<C>(&mut self, context: &C, alloc: Global, fields: &ByteRecord, id: u64) -> TextResult
    where
        S: Keeps<C>,
        requires few { CanCountOneMore self.old.rows }
        ensures answered { IfOk result (λ line. BookLeads self.old.rows self.new.rows
            (λ s t. IsRowDone S.spec s (fields_of fields.now) (book_row.Release id) line.items t
            self.old.rows.sink.keeping self.new.rows.sink.keeping)) }
        ensures lost { OnErr result (IsAnsweredLost S.spec (fields_of fields.now)
            (Ok (book_row.Release id)) self.old.rows self.new.rows) }
        ensures counts { GrowsByOneAtMost self.old.rows self.new.rows }
        ensures read { self.new.read ≡ self.old.read }
    {
        let text = row_text(alloc, fields)?;
        let found = self.rows.sink.release(context, alloc, text, id)?;
        match found {
            Ok(line) => Ok(line),
            Err(why) => {
                let line = refused_release(alloc, id, why)?;
                self.rows.refused += 1;
                Ok(line)
            }
        }
    }

    /// Restores a placement, or refuses the `held` row.
    fn restore<C>(
        &mut self,
        context: &C,
        alloc: Global,
        fields: &ByteRecord,
        placement: Placement,
    ) -> TextResult
    where
        S: Keeps<C>,
        requires few { CanCountOneMore self.old.rows }
        requires ends { ConnectsItsEnds placement }
        ensures answered { IfOk result (λ line. BookLeads self.old.rows self.new.rows
            (λ s t. IsRowDone S.spec s (fields_of fields.now) (book_row.Held placement)
            line.items t self.old.rows.sink.keeping self.new.rows.sink.keeping)) }
        ensures lost { OnErr result (IsAnsweredLost S.spec (fields_of fields.now)
            (Ok (book_row.Held placement)) self.old.rows self.new.rows) }
        ensures counts { GrowsByOneAtMost self.old.rows self.new.rows }
        ensures read { self.new.read ≡ self.old.read }
    {
        let text = row_text(alloc, fields)?;
        let id = placement.request.id;
        let found = self.rows.sink.restore(context, alloc, text, placement)?;
        match found {
            Ok(lines) => Ok(lines),
            Err(why) => {
                let line = refused_held(alloc, id, why)?;
                self.rows.refused += 1;
                Ok(line)
            }
        }
    }

    /// Answers a request with the holding priority `hold` as `place` would, or refuses the `offer`
    /// row. Nothing is placed.
    fn offer<C>(&mut self, alloc: Global, request: &Request, hold: u8) -> TextResult
    where
        S: Keeps<C>,
        requires few { CanCountOneMore self.old.rows }
        requires hold { hold < 8 }
        ensures answered { (fields : List (List ℕ)) → IfOk result (λ line.
            BookLeads self.old.rows self.new.rows
            (λ s t. IsRowDone S.spec s fields (book_row.Offer request.now hold)
            line.items t self.old.rows.sink.keeping self.new.rows.sink.keeping)) }
        ensures lost { OnErr result (self.new.rows ≡ self.old.rows) }
        ensures counts { GrowsByOneAtMost self.old.rows self.new.rows }
        ensures read { self.new.read ≡ self.old.read }
    {
        let found = self.rows.sink.offer::<C>(alloc, request, hold)?;
        match found {
            Ok(line) => {
                self.rows.answers += 1;
                Ok(line)
            }
            Err(why) => {
                let line = refused_offer(alloc, request.id, why)?;
                self.rows.refused += 1;
                Ok(line)
            }
        }
    }

    /// Shows the placement with this id, or refuses the `show` row.
    fn show<C>(&mut self, alloc: Global, id: u64) -> TextResult
    where
        S: Keeps<C>,
        requires few { CanCountOneMore self.old.rows }
        ensures answered { (fields : List (List ℕ)) → IfOk result (λ line.
            BookLeads self.old.rows self.new.rows
            (λ s t. IsRowDone S.spec s fields (book_row.Show id)
            line.items t self.old.rows.sink.keeping self.new.rows.sink.keeping)) }
        ensures lost { OnErr result (self.new.rows ≡ self.old.rows) }
        ensures counts { GrowsByOneAtMost self.old.rows self.new.rows }
        ensures read { self.new.read ≡ self.old.read }
    {
        let version = self.rows.sink.named();
        match self.rows.sink.book().placement(id) {
            Some(placement) => show_line(alloc, version, placement),
            None => {
                let line = refused_show(alloc, id)?;
                self.rows.refused += 1;
                Ok(line)
            }
        }
    }

    /// Shows the figures of the base's link with this key, or refuses the `left` row.
    fn left<C>(&mut self, alloc: Global, from: Addr, local: Addr) -> TextResult
    where
        S: Keeps<C>,
        requires few { CanCountOneMore self.old.rows }
        ensures answered { (fields : List (List ℕ)) → IfOk result (λ line.
            BookLeads self.old.rows self.new.rows
            (λ s t. IsRowDone S.spec s fields (book_row.Left from local)
            line.items t self.old.rows.sink.keeping self.new.rows.sink.keeping)) }
        ensures lost { OnErr result (self.new.rows ≡ self.old.rows) }
        ensures counts { GrowsByOneAtMost self.old.rows self.new.rows }
        ensures read { self.new.read ≡ self.old.read }
    {
        let version = self.rows.sink.named();
        match self.rows.sink.book().left(from, local) {
            Some(figures) => left_line(alloc, from, local, version, &figures),
            None => {
                let line = refused_left(alloc, from, local)?;
                self.rows.refused += 1;
                Ok(line)
            }
        }
    }
}

/// What a row is called in the line that refuses it by `memory`.
fn name_of(row: &Result<BookRow, BookRowError>) -> RowName
    ensures { result ≡ name_as_read row.now }
{
    match row {
        Ok(row) => RowName::of(row),
        Err(_unread) => RowName::Row,
    }
}
