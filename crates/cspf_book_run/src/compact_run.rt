//! The run of `routed book --compact`. It reads a stream of rows, and makes the rows of a snapshot
//! and of held placements that make the same book.

ghost use Rattle.std.specs.Prelude.{◌≡◌, IfOk, IfErr, IfSome, ◌++◌};
ghost use Rattle.std.specs.Option.{option_map};
ghost use Rattle.cspf_rows.specs.Records.{rows_of, rows_left, IsPlain};
ghost use Rattle.cspf_book_run.specs.BookScript.{book_start};
ghost use Rattle.cspf_book_run.specs.BookStates.{KeepsBook, IsBookBefore};
ghost use Rattle.cspf_book_run.specs.CompactStates.{IsBookCompact, IsOpenStop, IsReadingStop};
ghost use Rattle.cspf_book_run.specs.Compacts.{IsBookRead, IsCompaction, IsCompactStop};
ghost use Rattle.cspf_book_run.specs.Settled.{IsSettledPart, IsTornCompaction, IsTornStop};

use crate::book_rows::BookRows;
use crate::compact::compact_text;
use crate::compact_stop::CompactStop;
use crate::keeper::KeepsNothing;
use crate::laws::compacts_make_books;
use crate::ranges::placements_in_range;
use crate::settled::settled_part;
use cspf_book::Book;
use cspf_rows::open_records;
use cspf_stream::{Answering, Ending, StreamError, answer_rows};
use csv::{ByteRecord, Reader};
use std::alloc::Global;
use std::io;
use std::io::{ErrorKind, Read};

/// The state of the run between two rows. The texts of accepted rows are kept nowhere.
#[derive(Drop)]
pub struct CompactRows {
    rows: BookRows<KeepsNothing>,
}

impl Answering<()> for CompactRows {
    type Fault = CompactStop;

    ghost use Rattle.cspf_book_run.specs.CompactStates.{IsCompactBefore, IsRowTaken, IsCompactFault};

    ghost answers = { IsRowTaken };

    ghost fails = { IsCompactFault };

    ghost may_stand = { IsCompactBefore };

    fn answer(
        &mut self,
        context: &(),
        alloc: Global,
        place: u64,
        fields: &ByteRecord,
    ) -> Result<Vec<u8>, CompactStop> {
        let line = self.rows.answer(context, alloc, place, fields)?;
        if self.rows.has_refused() {
            return Err(CompactStop::Refused { row: place, line });
        }
        Ok(Vec::new(alloc))
    }
}

/// Reads a stream of rows as `run_book` does, and returns the compact stream that makes the same
/// book: a snapshot of the base, and then the `held` row of each placement, in their order. Any
/// number of rows is read. `IsCompaction` defines the text.
///
/// If a row is refused, no later row is read. `Refused` has the row's number and the line that
/// refuses it. If changes are open after the last row, `Unended` has the line that says so. `Stream`
/// means that memory was refused or a read failed.
pub fn run_compact<R: Read + Drop>(alloc: Global, reader: R) -> Result<Vec<u8>, CompactStop>
    ensures made { IfOk result (λ text. IfSome (R.remaining reader) (λ bytes.
        IsCompaction (rows_of bytes) text.items)) }
    ensures stopped { IfErr result (λ why. IfSome (R.remaining reader) (λ bytes.
        IsCompactStop why (rows_of bytes))) }
{
    let rows = read_book(alloc, reader)?;
    compact_book(alloc, &rows)
}

/// Reads a stream of rows as `run_book` does, and returns the state after the last row, in which no
/// change is open. `IsBookRead` defines this state. Any number of rows is read, no lines are written,
/// and no texts are kept. The errors are those of `run_compact`.
pub fn read_book<R: Read + Drop>(
    alloc: Global,
    reader: R,
) -> Result<BookRows<KeepsNothing>, CompactStop>
    ensures read { IfOk result (IsBookRead (option_map rows_of (R.remaining reader))) }
    ensures stopped { IfErr result (λ why. IfSome (R.remaining reader) (λ bytes.
        IsCompactStop why (rows_of bytes))) }
{
    let book = Book::new(alloc)?;
    let compact = CompactRows {
        rows: BookRows::new(alloc, book, KeepsNothing),
    };
    let mut rows = open_records(alloc, reader);
    read_all(alloc, &mut rows, compact)
}

/// As `run_compact`, but leaves out what follows the last whole line that begins with `end,`,
/// `place,`, `release,` or `held,`. A line is whole if it has its line feed. So the end of a file may
/// be left out that was torn while it was written. Also returns how many bytes were left out, or 0 if
/// the stream can't be read to its end. The bytes of the whole stream are kept in memory.
pub fn run_torn_compact<R: Read + Drop>(
    alloc: Global,
    mut reader: R,
) -> (Result<Vec<u8>, CompactStop>, usize)
    ensures made { IfOk result.0 (λ text. IfSome (R.remaining reader) (λ bytes.
        IsTornCompaction bytes text.items result.1)) }
    ensures stopped { IfErr result.0 (λ why. IfSome (R.remaining reader) (λ bytes.
        IsTornStop why bytes result.1)) }
{
    let mut bytes = Vec::new(alloc);
    match reader.read_to_end(&mut bytes) {
        Ok(_) => compact_settled(alloc, bytes.as_slice()),
        Err(error) => (Err(CompactStop::Stream(read_error(error))), 0),
    }
}

/// Why a stream ends that can't be read to its end.
fn read_error(error: io::Error) -> StreamError {
    match error.kind() {
        ErrorKind::OutOfMemory => StreamError::Memory,
        _ => StreamError::Read,
    }
}

/// The compact stream of the settled part of some bytes, and how many bytes are left out.
fn compact_settled(alloc: Global, bytes: &[u8]) -> (Result<Vec<u8>, CompactStop>, usize)
    ensures made { IfOk result.0 (λ text. IsTornCompaction bytes.now text.items result.1) }
    ensures stopped { IfErr result.0 (λ why. IsTornStop why bytes.now result.1) }
{
    let part = settled_part(bytes);
    let left = bytes.len() - part.len();
    (run_compact(alloc, part), left)
}

/// Answers all rows that the reader hasn't read yet, and returns the state after them.
fn read_all<R: Read>(
    alloc: Global,
    rows: &mut Reader<R>,
    compact: CompactRows,
) -> Result<BookRows<KeepsNothing>, CompactStop>
    requires plain { IsPlain rows.old }
    requires fresh { KeepsBook compact.rows.rows book_start }
    requires first { IsBookBefore 1 compact.rows }
    ensures read { IfOk result (IsBookRead (rows_left R.remaining rows.old)) }
    ensures stopped { IfErr result (λ why. IfSome (rows_left R.remaining rows.old) (λ all.
        IsCompactStop why all)) }
{
    let mut compact = compact;
    match answer_rows(&(), alloc, rows, &mut io::sink(), &mut compact) {
        Ok(()) => ended(alloc, compact),
        Err(stop) => Err(CompactStop::from(stop)),
    }
}

/// The state after all rows. If changes are open, the error has the line that says how many.
fn ended(alloc: Global, compact: CompactRows) -> Result<BookRows<KeepsNothing>, CompactStop>
    ensures closed { IfOk result (λ rows. (rows ≡ compact.rows) × (rows.rows.changes.count ≡ 0)) }
    ensures stopped { IfErr result (IsOpenStop compact) }
{
    let CompactRows { rows } = compact;
    if rows.has_open() {
        let line = rows.last_line(alloc, false)?;
        return Err(CompactStop::Unended { line });
    }
    Ok(rows)
}

/// The compact stream of the book.
fn compact_book(alloc: Global, rows: &BookRows<KeepsNothing>) -> Result<Vec<u8>, CompactStop>
    ensures made { IfOk result (λ text. IsBookCompact rows.now text.items) }
    ensures stopped { IfErr result IsReadingStop }
{
    // Law: the compact stream of a book makes its base and its placements.
    compacts_make_books();
    let book = rows.book();
    placements_in_range(book.placements());
    Ok(compact_text(alloc, book)?)
}
