//! Finds the refused row of a file, for `--explain`. For this the file is read a second time.

use crate::options::{ACCEPT_TORN, Call, CommandOption, REQUESTS};
use crate::standard_error::say_at;
use cspf_questions::{AnswersNone, Kinds, QuestionError, QuestionKinds, ReadFields};
use cspf_rows::{MOST_ROWS, Row, RowError, open_records};
use csv::{ByteRecord, Reader};
use std::alloc::Global;
use std::fs::File;
use std::io::Read;
use std::{fmt, fs};

/// Why a row is refused.
#[derive(Clone, Copy)]
enum Why {
    /// The row can't be read, or a row of its kind isn't allowed in this file.
    Row(RowError),
    /// The row is one of a question, and is refused.
    Question(QuestionError),
    /// The row ends a batch, but its number isn't the number of the next batch.
    Number { expected: u32 },
    /// The row ends a batch, but its count isn't the number of the batch's changes.
    Count { counted: u32 },
    /// The row is the last row of the file, and no `end` row follows the last `changes` changes.
    Unended { changes: u32 },
    /// The file has too many rows: the rows before this row are already the most that a file may
    /// have.
    TooMany,
}

impl fmt::Display for Why {
    fn fmt<W: fmt::Write>(&self, f: &mut fmt::Formatter<W>) -> fmt::Result {
        match self {
            Why::Row(error) => write!(f, "{error}"),
            Why::Question(error) => write!(f, "{error}"),
            Why::Number { expected } => write!(f, "expected {expected}"),
            Why::Count { counted } => write!(f, "counted {counted}"),
            Why::Unended { changes } => write!(f, "unended {changes}"),
            Why::TooMany => f.write_str("too many rows"),
        }
    }
}

/// A refused row. Rows are numbered from 1.
#[derive(Clone, Copy)]
pub struct RefusedRow {
    row: u32,
    why: Why,
}

impl fmt::Display for RefusedRow {
    fn fmt<W: fmt::Write>(&self, f: &mut fmt::Formatter<W>) -> fmt::Result {
        write!(f, "row {}: {}", self.row, self.why)
    }
}

/// What the rows of a file may be.
#[derive(Clone, Copy)]
struct Allowed {
    /// The file is a journal. Otherwise it is a file of requests.
    is_journal: bool,
    /// Which kinds of questions a file of requests may have.
    kinds: QuestionKinds,
}

/// The state after some rows of a journal or of a file of requests: the number of whole batches,
/// the number of changes after them, and the first refused row.
#[derive(Clone, Copy)]
struct Progress {
    allowed: Allowed,
    batches: u32,
    changes: u32,
    /// The first row that is refused.
    refused: Option<RefusedRow>,
}

impl Progress {
    /// Checks the next row, if no earlier row is refused. The result is `None` if memory is refused.
    fn take(&mut self, alloc: Global, row: u32, fields: &ByteRecord) -> Option<()> {
        if self.refused.is_none() {
            let read = ReadFields::of(alloc, self.allowed.kinds, fields).ok()?;
            if let Some(why) = self.refusal(&read) {
                self.refused = Some(RefusedRow { row, why });
            }
        }
        Some(())
    }

    /// Counts a row, or returns why the row is refused.
    fn refusal(&mut self, read: &ReadFields) -> Option<Why> {
        match read {
            ReadFields::Row(read) => self.row_refusal(*read),
            ReadFields::Question(_) => None,
            ReadFields::Refused(error) => Some(Why::Question(*error)),
        }
    }

    /// Counts a row that asks no question, or returns why it is refused.
    fn row_refusal(&mut self, read: Result<Row, RowError>) -> Option<Why> {
        let is_journal = self.allowed.is_journal;
        match read {
            Err(error) => Some(Why::Row(error)),
            Ok(Row::Ask(_)) if !is_journal => None,
            Ok(Row::End { number, count }) if is_journal => self.end(number, count),
            Ok(Row::Put(_) | Row::Remove { .. } | Row::Node { .. }) if is_journal => {
                self.changes = self.changes.saturating_add(1);
                None
            }
            Ok(_) => Some(Why::Row(RowError::Kind)),
        }
    }

    /// Counts a batch at its `end` row, or returns why the `end` row is refused.
    fn end(&mut self, number: u32, count: u32) -> Option<Why> {
        let expected = self.batches.saturating_add(1);
        if number != expected {
            return Some(Why::Number { expected });
        }
        if count != self.changes {
            return Some(Why::Count {
                counted: self.changes,
            });
        }
        self.batches = expected;
        self.changes = 0;
        None
    }

    /// The refused row of a file whose last row has the number `row`. If a row was refused so far,
    /// it is that row. Otherwise, if changes follow the last `end` row, it is the last row.
    fn last(&self, row: u32) -> Option<RefusedRow> {
        if self.refused.is_some() || self.changes == 0 {
            return self.refused;
        }
        Some(RefusedRow {
            row,
            why: Why::Unended {
                changes: self.changes,
            },
        })
    }
}

/// Reads the next row, and returns whether there is one. The result is `None` if the row can't be
/// read.
fn is_next<R: Read>(rows: &mut Reader<R>, fields: &mut ByteRecord) -> Option<bool> {
    rows.read_byte_record(fields).ok()
}

/// The refused row of a journal or of a file of requests. The result is `None` if no row is
/// refused, or if the file can't be read to its end.
fn refused_row<R: Read + Drop>(alloc: Global, file: R, allowed: Allowed) -> Option<RefusedRow> {
    let mut rows = open_records(alloc, file);
    let mut fields = ByteRecord::new(alloc);
    refused_of(alloc, &mut rows, &mut fields, allowed)
}

/// Finds the refused row. It is the first refused row, or the first row beyond the limit if a
/// journal has too many rows.
fn refused_of<R: Read>(
    alloc: Global,
    rows: &mut Reader<R>,
    fields: &mut ByteRecord,
    allowed: Allowed,
) -> Option<RefusedRow> {
    let mut progress = Progress {
        allowed,
        batches: 0,
        changes: 0,
        refused: None,
    };
    for row in 1..=MOST_ROWS {
        if !is_next(rows, fields)? {
            return progress.last(row - 1);
        }
        progress.take(alloc, row, fields)?;
        // After a refused row, the rest of a journal is still read. If the journal has too many
        // rows, the first row beyond the limit is reported instead of the refused row.
        if !allowed.is_journal && progress.refused.is_some() {
            return progress.refused;
        }
    }
    match is_next(rows, fields) {
        Some(true) => Some(RefusedRow {
            row: MOST_ROWS + 1,
            why: Why::TooMany,
        }),
        _ => progress.last(MOST_ROWS),
    }
}

/// Opens a file a second time. Only a plain file can be read again.
fn again(rt: &HostRuntime, path: &str) -> Option<File> {
    if !fs::metadata(rt, path).ok()?.is_file() {
        return None;
    }
    File::open(rt, path).ok()
}

/// Finds the first refused file of a run, and writes which row of this file is refused. `options`
/// are the options of the command.
pub(crate) fn explain_rows(call: &Call<'_, '_>, options: &[CommandOption]) {
    for option in options {
        if option.has_rows() && !is_accepted(call, option.name()) {
            return;
        }
    }
}

/// If a row of an option's file is refused, writes which row. Returns whether the next file has to
/// be read too.
fn is_accepted(call: &Call<'_, '_>, option: &'static str) -> bool {
    let is_journal = option != REQUESTS;
    if is_journal && call.has(ACCEPT_TORN) {
        return true;
    }
    let path = call.value(option);
    let Some(file) = again(call.rt, path) else {
        return false;
    };
    let kinds = if is_journal {
        AnswersNone::value()
    } else {
        call.kinds()
    };
    match refused_row(call.rt.alloc(), file, Allowed { is_journal, kinds }) {
        Some(row) => {
            say_at(call.rt, option, path, &row);
            false
        }
        None => true,
    }
}
