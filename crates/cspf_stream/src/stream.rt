//! The loop over a stream. Each row is answered, and its line is written before the next row is
//! read.

ghost use Rattle.std.specs.Prelude.{◌≡◌, ◌+◌, ◌*◌, ◌^◌, ◌<◌, ◌≤◌, ℕ, List, true, false, length, OnOk, IfErr};
ghost use Rattle.std.specs.Io.KnownBytes.{Appends};
ghost use Rattle.csv.specs.Records.{fields_of};
ghost use Rattle.csv.specs.Reading.{has_failed};
ghost use Rattle.cspf_rows.specs.Records.{rows_left, IsPlain};
ghost use Rattle.cspf_stream.specs.RowAnswers.{AreAllAnswered};
ghost use Rattle.cspf_stream.specs.StreamStops.{IsStreamStopped, IsLineStopped};
ghost use Rattle.cspf_stream.specs.FirstRows.{AreFirstRowsAnswered, IsStoppedAfter, IsRowStop, IsLineStoppedAfter};

use crate::{Answering, MOST_STREAM_ROWS, StreamError, StreamStop};
use cspf_rows::{next_record, put_all};
use csv::{ByteRecord, Reader};
use std::alloc::Global;
use std::io::{Read, Write};

/// How a stream is answered: the greatest number of rows that are answered, and whether the writer
/// is flushed after each line.
#[derive(Clone, Copy)]
struct Manner {
    limit: u64,
    flush: bool,
}

/// Answers all rows that the reader hasn't read yet, in order. The line of a row is written and
/// flushed before the next row is read. A line is written in one write, if the writer accepts all
/// its bytes at once. An empty line isn't written. Memory is needed only for the longest row and
/// for the answers.
///
/// If the result is an error, no row was read after the row at which the stream stopped. The lines
/// of all rows before this row are written. `IsStreamStopped` defines the rest of the state.
pub fn answer_rows<R: Read, W: Write, C, A: Answering<C>>(
    context: &C,
    alloc: Global,
    rows: &mut Reader<R>,
    writer: &mut W,
    answering: &mut A,
) -> Result<(), StreamStop<A::Fault>>
    requires plain { IsPlain rows.old }
    requires state { A.may_stand 1 answering.old }
    ensures whole { OnOk result (AreAllAnswered A.answers (rows_left R.remaining rows.old)
        answering.old answering.new (W.contents writer.old) (W.contents writer.new)) }
    ensures stopped { IfErr result (λ stop. IsStreamStopped A.answers A.fails stop
        (rows_left R.remaining rows.old) (rows_left R.remaining rows.new) (has_failed rows.new)
        answering.old answering.new (W.contents writer.old) (W.contents writer.new)) }
{
    let limit = MOST_STREAM_ROWS;
    answer_first_rows(context, alloc, limit, true, rows, writer, answering).1
}

/// As `answer_rows`, but answers at most the next `limit` rows of the reader, and flushes only if
/// `flush` is set. Returns how many bytes were written, and how the stream ended.
pub fn answer_first_rows<R: Read, W: Write, C, A: Answering<C>>(
    context: &C,
    alloc: Global,
    limit: u64,
    flush: bool,
    rows: &mut Reader<R>,
    writer: &mut W,
    answering: &mut A,
) -> (u128, Result<(), StreamStop<A::Fault>>)
    requires plain { IsPlain rows.old }
    requires state { A.may_stand 1 answering.old }
    ensures whole { OnOk result.1 (AreFirstRowsAnswered A.answers limit result.0
        (rows_left R.remaining rows.old)
        answering.old answering.new (W.contents writer.old) (W.contents writer.new)) }
    ensures stopped { IfErr result.1 (λ stop. IsStoppedAfter A.answers A.fails limit flush result.0 stop
        (rows_left R.remaining rows.old) (rows_left R.remaining rows.new) (has_failed rows.new)
        answering.old answering.new (W.contents writer.old) (W.contents writer.new)) }
    ensures small { result.0 ≤ limit * 2 ^ 64 }
{
    let manner = Manner { limit, flush };
    let mut fields = ByteRecord::new(alloc);
    let mut written = 0;
    let ended = answer_each(
        context,
        alloc,
        manner,
        rows,
        &mut fields,
        writer,
        &mut written,
        answering,
    );
    (written, ended)
}

/// Answers the rows that the reader hasn't read yet. Each row is read into `fields`. Counts the
/// bytes that are written.
fn answer_each<R: Read, W: Write, C, A: Answering<C>>(
    context: &C,
    alloc: Global,
    manner: Manner,
    rows: &mut Reader<R>,
    fields: &mut ByteRecord,
    writer: &mut W,
    written: &mut u128,
    answering: &mut A,
) -> Result<(), StreamStop<A::Fault>>
    requires plain { IsPlain rows.old }
    requires state { A.may_stand 1 answering.old }
    requires none { written.old ≡ 0 }
    ensures whole { OnOk result (AreFirstRowsAnswered A.answers manner.limit written.new
        (rows_left R.remaining rows.old)
        answering.old answering.new (W.contents writer.old) (W.contents writer.new)) }
    ensures stopped { IfErr result (λ stop. IsStoppedAfter A.answers A.fails
        manner.limit manner.flush written.new stop
        (rows_left R.remaining rows.old) (rows_left R.remaining rows.new) (has_failed rows.new)
        answering.old answering.new (W.contents writer.old) (W.contents writer.new)) }
    ensures small { written.new ≤ manner.limit * 2 ^ 64 }
{
    for read in 0..manner.limit {
        if !next_record(rows, fields)? {
            return Ok(());
        }
        answer_row(
            context,
            alloc,
            manner.flush,
            read + 1,
            fields,
            writer,
            written,
            answering,
        )?;
    }
    if next_record(rows, fields)? {
        return Err(StreamStop::Stream(StreamError::TooManyRows));
    }
    Ok(())
}

/// Answers row `place` and writes the row's line. Flushes the writer if `flush` is set, and adds
/// the number of written bytes to `written`.
fn answer_row<W: Write, C, A: Answering<C>>(
    context: &C,
    alloc: Global,
    flush: bool,
    place: u64,
    fields: &ByteRecord,
    writer: &mut W,
    written: &mut u128,
    answering: &mut A,
) -> Result<(), StreamStop<A::Fault>>
    requires place { 1 ≤ place }
    requires state { A.may_stand place answering.old }
    requires room { written.old + 2 ^ 64 ≤ place * 2 ^ 64 }
    ensures answered { OnOk result ((line : List ℕ)
        × A.answers place answering.old (fields_of fields.now) line answering.new
        × Appends (W.contents writer.old) (W.contents writer.new) line
        × (written.new ≡ written.old + length line)) }
    ensures state { OnOk result (A.may_stand (place + 1) answering.new) }
    ensures stopped { IfErr result (λ stop. IsRowStop A.answers A.fails
        flush written.old written.new stop
        place (fields_of fields.now) answering.old answering.new
        (W.contents writer.old) (W.contents writer.new)) }
    ensures small { written.new ≤ place * 2 ^ 64 }
{
    let line = match answering.answer(context, alloc, place, fields) {
        Ok(line) => line,
        Err(fault) => return Err(StreamStop::Answer(fault)),
    };
    let (size, put) = put_counted(line.as_slice(), flush, writer);
    *written += size as u128;
    match put {
        Ok(()) => Ok(()),
        Err(why) => Err(StreamStop::Stream(why)),
    }
}

/// Writes a line, and then flushes the writer if `flush` is set. Does nothing for an empty line.
/// Also returns how many bytes of the line were written.
fn put_counted<W: Write>(
    line: &[u8],
    flush: bool,
    writer: &mut W,
) -> (usize, Result<(), StreamError>)
    ensures whole { OnOk result.1 (Appends (W.contents writer.old) (W.contents writer.new) line.now
        × (result.0 ≡ length line.now)) }
    ensures stopped { IfErr result.1 (λ error. IsLineStoppedAfter flush result.0 error line.now
        (W.contents writer.old) (W.contents writer.new)) }
    ensures small { result.0 ≤ 2 ^ 64 }
{
    if line.is_empty() {
        return (0, Ok(()));
    }
    if let Err(size) = put_all(writer, line) {
        return (size, Err(StreamError::Write));
    }
    if flush && writer.flush().is_err() {
        return (line.len(), Err(StreamError::Flush));
    }
    (line.len(), Ok(()))
}

/// Writes a line and flushes the writer. Does nothing for an empty line.
pub fn put_line<W: Write>(line: &[u8], writer: &mut W) -> Result<(), StreamError>
    ensures whole { OnOk result (Appends (W.contents writer.old) (W.contents writer.new) line.now) }
    ensures stopped { IfErr result (λ error. IsLineStopped error line.now
        (W.contents writer.old) (W.contents writer.new)) }
{
    put_counted(line, true, writer).1
}
