//! The run of `routed book`. It reads a stream of rows, writes the lines that answer each row, and
//! writes the text of accepted rows to a second writer, `keep`.

ghost use Rattle.std.specs.Prelude.{◌≡◌, ℕ, List, true, false, IfOk, IfErr, IfSome};
ghost use Rattle.std.specs.Io.KnownBytes.{Appends};
ghost use Rattle.csv.specs.Reading.{has_failed};
ghost use Rattle.cspf_rows.specs.Records.{rows_of, rows_left, IsPlain};
ghost use Rattle.cspf_solve.specs.declared.error.SolveError.TheVariants.{Read as IsRead};
ghost use Rattle.cspf_book_run.specs.BookScript.{book_start};
ghost use Rattle.cspf_book_run.specs.KeptRuns.{IsBookRun, IsBookScript};
ghost use Rattle.cspf_book_run.specs.BookOutput.{IsBookOutputAtError};
ghost use Rattle.cspf_book_run.specs.BookStates.{KeepsBook, IsBookBefore};

use crate::book_rows::BookRows;
use crate::keeper::Keeping;
use cspf_book::Book;
use cspf_rows::{MOST_ROWS, open_records};
use cspf_solve::{SolveError, Summary};
use cspf_stream::run_rows;
use csv::Reader;
use std::alloc::Global;
use std::io::{Read, Write};

/// Reads a stream of rows for a book, and writes the lines that answer each row before it reads the
/// next row. The lines of a row are written in one write, if the writer accepts all their bytes at
/// once. At most 1,000,000 rows are answered. `IsBookScript` defines these lines and the refusals,
/// and which bytes are written to `keep`: the text of each accepted row, before the book has the
/// row's version. So a row is accepted only if its whole text is in `keep`. The function also
/// returns `keep`.
///
/// If a write to `keep` fails or writes no byte, the row is refused, and the line says how many
/// bytes of its text were written. These bytes may stay in `keep`, behind the texts of the accepted
/// rows. From then on nothing is written to `keep`, and each end row, `place` row and `release` row
/// is refused. The run goes on, and answers requests.
///
/// After an error, the lines that answer a prefix of the rows are written, and `keep` has what is
/// written to it for these rows. `Memory` means that memory was refused. If it was refused for the
/// line of the row at which a write to `keep` failed, the first bytes of this row's text are in
/// `keep`, too. `Read` means that a read failed. `Write` means that a write of lines failed or wrote
/// no byte. A part of the next row's lines, or of the last line, may then be written, but never all
/// of it, and `keep` has what is written to it for this row, too. The function flushes neither
/// writer.
pub fn run_book<R: Read + Drop, W: Write, K: Write>(
    alloc: Global,
    reader: R,
    writer: &mut W,
    keep: K,
) -> (Result<Summary, SolveError>, K)
    ensures whole { IfOk result.0 (λ summary. IfSome (R.remaining reader) (λ bytes.
        (lines : List ℕ) × (kept : List ℕ) × IsBookScript bytes lines kept summary
        × Appends (W.contents writer.old) (W.contents writer.new) lines
        × Appends (K.contents keep) (K.contents result.1) kept)) }
    ensures stopped { IfErr result.0 (λ error. IfSome (R.remaining reader) (λ bytes.
        (out : List ℕ) × (kept : List ℕ) × IsBookOutputAtError error (rows_of bytes) out kept
        × Appends (W.contents writer.old) (W.contents writer.new) out
        × Appends (K.contents keep) (K.contents result.1) kept)) }
{
    match Book::new(alloc) {
        Ok(book) => {
            let mut book = BookRows::new(alloc, book, Keeping::new(keep));
            let mut rows = open_records(alloc, reader);
            let ran = answer_all(alloc, &mut rows, &mut book, writer);
            (ran, book.into_keeping().into_keep())
        }
        Err(_refused) => (Err(SolveError::Memory), keep),
    }
}

/// Answers all rows that the reader hasn't read yet.
fn answer_all<R: Read, W: Write, K: Write>(
    alloc: Global,
    rows: &mut Reader<R>,
    book: &mut BookRows<Keeping<K>>,
    writer: &mut W,
) -> Result<Summary, SolveError>
    requires plain { IsPlain rows.old }
    requires fresh { KeepsBook book.old.rows book_start }
    requires going { book.old.rows.sink.keeping.stopped ≡ false }
    requires first { IsBookBefore 1 book.old }
    ensures whole { IfOk result (λ summary. IfSome (rows_left R.remaining rows.old) (λ all.
        (lines : List ℕ) × (kept : List ℕ) × IsBookRun all lines kept summary
        × Appends (W.contents writer.old) (W.contents writer.new) lines
        × Appends (K.contents book.old.rows.sink.keeping.keep)
        (K.contents book.new.rows.sink.keeping.keep) kept)) }
    ensures stopped { IfErr result (λ error. IfSome (rows_left R.remaining rows.old) (λ all.
        (out : List ℕ) × (kept : List ℕ) × IsBookOutputAtError error all out kept
        × Appends (W.contents writer.old) (W.contents writer.new) out
        × Appends (K.contents book.old.rows.sink.keeping.keep)
        (K.contents book.new.rows.sink.keeping.keep) kept)) }
    // If the error is `Read`, the reader itself failed.
    ensures read { IfErr result (λ error. error ≡ IsRead → has_failed rows.new ≡ true) }
{
    let limit = u64::from(MOST_ROWS);
    match run_rows(alloc, limit, rows, writer, book) {
        Ok(too_many) => Ok(book.summary(too_many)),
        Err(stop) => Err(SolveError::from(stop)),
    }
}
