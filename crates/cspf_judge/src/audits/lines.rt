//! Cuts the stream of replies into at most `MOST_ROWS` lines.

ghost use Rattle.std.specs.Prelude.{◌≡◌, ◌≤◌, [], length, IfOk, IfErr, OnOk, IfSome};
ghost use Rattle.cspf_rows.specs.declared.limits.TheConstants.{MOST_ROWS};
ghost use Rattle.std.specs.Io.BufRead.{strip_last};
ghost use Rattle.cspf_judge.specs.Lines.{AreLines, HasTooManyLines};
ghost use Rattle.cspf_judge.specs.LineReading.{TakesLine, IsReadingFault, IsLinesFault};

use crate::AuditError;
use cspf_rows::MOST_ROWS;
use std::alloc::Global;
use std::io::{BufRead, BufReader, Read};
use std::marker::Model;

/// The bytes of a line, without its line feed.
#[derive(Drop)]
pub(crate) struct ReplyLine(Vec<u8>);

impl Model for ReplyLine {
    ghost use Rattle.std.specs.Prelude.{ℕ, List};

    ghost Value = { List ℕ };

    ghost view = { λ a. a.0.items };
}

impl ReplyLine {
    /// The bytes of the line, without its line feed.
    pub(crate) fn text(&self) -> &[u8]
        ensures { result.now ≡ self.now }
    {
        self.0.as_slice()
    }
}

/// Reads the lines of a stream up to its end. A stream with more than `MOST_ROWS` lines is refused as
/// `TooManyRows`.
pub(crate) fn read_lines<P: Read + Drop>(
    alloc: Global,
    replies: P,
) -> Result<Vec<ReplyLine>, AuditError>
    ensures whole { IfOk result (λ lines. IfSome (P.remaining replies) (λ bytes.
        AreLines bytes lines.items)) }
    ensures most { IfOk result (λ lines. length lines.items ≤ MOST_ROWS) }
    ensures too_many { result ≡ Err AuditError.TooManyRows
        → IfSome (P.remaining replies) HasTooManyLines }
    ensures error { IfErr result IsLinesFault }
{
    let mut reader = BufReader::new(alloc, replies)?;
    let mut lines = Vec::new(alloc);
    read_all(alloc, &mut reader, &mut lines)?;
    Ok(lines)
}

/// Reads all lines that the reader still has.
fn read_all<B: BufRead>(
    alloc: Global,
    reader: &mut B,
    lines: &mut Vec<ReplyLine>,
) -> Result<(), AuditError>
    requires fresh { lines.old.items ≡ [] }
    ensures whole { OnOk result (IfSome (B.remaining reader.old) (λ bytes.
        AreLines bytes lines.new.items)) }
    ensures most { OnOk result (length lines.new.items ≤ MOST_ROWS) }
    ensures too_many { result ≡ Err AuditError.TooManyRows
        → IfSome (B.remaining reader.old) HasTooManyLines }
    ensures error { IfErr result IsLinesFault }
{
    for _read in 0..MOST_ROWS {
        match next_line(alloc, reader)? {
            Some(line) => lines.push(line)?,
            None => return Ok(()),
        }
    }
    match next_line(alloc, reader)? {
        Some(_) => return Err(AuditError::TooManyRows),
        None => Ok(()),
    }
}

/// Reads the next line. The result is `None` at the end of the stream.
fn next_line<B: BufRead>(alloc: Global, reader: &mut B) -> Result<Option<ReplyLine>, AuditError>
    ensures takes { IfOk result (TakesLine (B.remaining reader.old) (B.remaining reader.new)) }
    ensures error { IfErr result IsReadingFault }
{
    let mut text = Vec::new(alloc);
    if reader.read_until(b'\n', &mut text)? == 0 {
        return Ok(None);
    }
    cut_feed(&mut text);
    Ok(Some(ReplyLine(text)))
}

/// Removes the line feed from the end of a line.
fn cut_feed(text: &mut Vec<u8>)
    ensures { text.new.items ≡ strip_last 10 text.old.items }
{
    if text.last() == Some(&b'\n') {
        text.pop();
    }
}
