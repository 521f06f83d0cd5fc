//! A run over the rows of a stream: the rows are answered up to a limit, and then a last line is
//! written.

ghost use Rattle.std.specs.Prelude.{◌≡◌, ◌+◌, ◌*◌, ◌^◌, ◌≤◌, ℕ, List, IfOk, IfErr};
ghost use Rattle.std.specs.Io.KnownBytes.{Appends};
ghost use Rattle.csv.specs.Reading.{has_failed};
ghost use Rattle.cspf_rows.specs.Records.{rows_left, IsPlain};
ghost use Rattle.cspf_stream.specs.Runs.{HasRun, IsRunStopped, IsRowsEnd, IsLastStopped, rows_end};

use crate::{Answering, Ending, RunStop, StreamError, StreamStop, answer_first_rows};
use cspf_rows::put_all;
use csv::Reader;
use std::alloc::Global;
use std::io::{Read, Write};

/// Answers the rows that the reader hasn't read yet, but at most `limit` of them, and then writes
/// the last line. The line of a row is written before the next row is read. Returns whether there
/// are more rows. The writer isn't flushed.
pub fn run_rows<R: Read, W: Write, A: Answering<()> + Ending>(
    alloc: Global,
    limit: u64,
    rows: &mut Reader<R>,
    writer: &mut W,
    answering: &mut A,
) -> Result<bool, RunStop<A::Fault>>
    requires plain { IsPlain rows.old }
    requires state { A.may_stand 1 answering.old }
    ensures whole { IfOk result (λ too_many. HasRun A.answers A.last limit too_many
        (rows_left R.remaining rows.old)
        answering.old answering.new (W.contents writer.old) (W.contents writer.new)) }
    ensures stopped { IfErr result (λ stop. IsRunStopped A.answers A.fails A.last limit stop
        (rows_left R.remaining rows.old) (has_failed rows.new)
        answering.old answering.new (W.contents writer.old) (W.contents writer.new)) }
{
    let (written, ended) = answer_most(alloc, limit, rows, writer, answering);
    put_last(alloc, answering, writer, written, ended?)
}

/// Answers at most `limit` of the rows that the reader hasn't read yet. Returns how many bytes were
/// written, and whether there are more rows or why the run stops.
fn answer_most<R: Read, W: Write, A: Answering<()> + Ending>(
    alloc: Global,
    limit: u64,
    rows: &mut Reader<R>,
    writer: &mut W,
    answering: &mut A,
) -> (u128, Result<bool, RunStop<A::Fault>>)
    requires plain { IsPlain rows.old }
    requires state { A.may_stand 1 answering.old }
    ensures ends { IsRowsEnd A.answers A.fails A.last limit result.0 result.1
        (rows_left R.remaining rows.old) (has_failed rows.new)
        answering.old answering.new (W.contents writer.old) (W.contents writer.new) }
    ensures small { result.0 ≤ limit * 2 ^ 64 }
{
    let (written, ended) = answer_first_rows(&(), alloc, limit, false, rows, writer, answering);
    (written, rows_end(written, ended))
}

/// How the reading of the rows ends after `written` bytes of output: whether there are more rows,
/// or why the run stops.
fn rows_end<F>(written: u128, ended: Result<(), StreamStop<F>>) -> Result<bool, RunStop<F>>
    ensures { result ≡ rows_end written ended }
{
    match ended {
        Ok(()) => Ok(false),
        Err(StreamStop::Answer(fault)) => Err(RunStop::Answer(fault)),
        Err(StreamStop::Stream(StreamError::TooManyRows)) => Ok(true),
        Err(StreamStop::Stream(StreamError::Memory)) => Err(RunStop::Memory),
        Err(StreamStop::Stream(StreamError::Read)) => Err(RunStop::Read),
        Err(StreamStop::Stream(StreamError::Write | StreamError::Flush)) => {
            Err(RunStop::Write { written })
        }
    }
}

/// Writes the last line after `written` bytes of output. Returns `too_many`, which says whether
/// there are more rows.
fn put_last<W: Write, A: Answering<()> + Ending>(
    alloc: Global,
    answering: &A,
    writer: &mut W,
    written: u128,
    too_many: bool,
) -> Result<bool, RunStop<A::Fault>>
    requires room { written + 2 ^ 64 ≤ 2 ^ 128 }
    ensures same { IfOk result (λ more. more ≡ too_many) }
    ensures whole { IfOk result (λ more. (line : List ℕ) × A.last answering.now too_many line
        × Appends (W.contents writer.old) (W.contents writer.new) line) }
    ensures stopped { IfErr result (λ stop. IsLastStopped A.last answering.now too_many written stop
        (W.contents writer.old) (W.contents writer.new)) }
{
    let line = answering.last_line(alloc, too_many)?;
    match put_all(writer, line.as_slice()) {
        Ok(()) => Ok(too_many),
        Err(size) => Err(RunStop::Write {
            written: written + size as u128,
        }),
    }
}
