//! Tests that the reading of a text ends at a refused row, or at the first row above the limit.

use super::assert_case;
use cspf_rows::{MOST_ROWS, ReadError, RequestsError, RowError, read_journal, read_requests};
use std::alloc::Global;
use std::io;
use std::io::Read;

/// The number of rows that a reader still returns after the last row that should be read.
const MORE: u32 = 10;

/// A reader that first returns `row` `times` times, and then returns `other`, one row in each read.
/// `begun` is the number of rows that the reader has begun to return.
///
/// `csv` reads the first byte alone, to look for a byte order mark. After that it reads again only
/// when its buffer is empty and no record has ended. A record ends at its line feed. So each
/// further row takes one read, and after the last requested row there is no read.
#[derive(Drop)]
struct RowByRow<'a> {
    row: &'a [u8],
    times: u32,
    other: &'a [u8],
    rest: &'a [u8],
    begun: u32,
}

impl<'a> RowByRow<'a> {
    fn new(row: &'a [u8], times: u32, other: &'a [u8]) -> RowByRow<'a> {
        RowByRow {
            row,
            times,
            other,
            rest: &[],
            begun: 0,
        }
    }
}

impl<'a> Read for RowByRow<'a> {
    fn read(&mut self, buf: &mut [u8]) -> io::Result<usize> {
        if self.rest.is_empty() && self.begun < self.times.saturating_add(1 + MORE) {
            self.rest = if self.begun < self.times {
                self.row
            } else {
                self.other
            };
            self.begun = self.begun.saturating_add(1);
        }
        let rest = self.rest;
        let given = rest.len().min(buf.len());
        buf[..given].copy_from_slice(&rest[..given]);
        self.rest = &rest[given..];
        Ok(given)
    }
}

const ASK: &[u8] = b"ask,8,1.1.1.1,2.2.2.2,0,0,0x0,0x0,0x0,\n";

/// Rows at which the reading of requests ends, each with its error. A row without an error can be
/// read, but isn't an `ask` row.
const LAST: &[(&[u8], Option<RowError>)] = &[
    (b"foo\n", Some(RowError::Kind)),
    (
        b"ask,08,1.1.1.1,2.2.2.2,0,0,0x0,0x0,0x0,\n",
        Some(RowError::Number { field: 2 }),
    ),
    (b"drop,1.1.1.1,10.0.12.1\n", None),
    (b"end,1,0\n", None),
];

/// The error with which the reading of requests ends at the row with this number.
fn at_row(error: Option<RowError>, row: u32) -> RequestsError {
    match error {
        Some(error) => RequestsError::Bad { row, error },
        None => RequestsError::NotAsk { row },
    }
}

/// Whether reading ends with this error at the row `last`, and no later row is read. The row `last`
/// has the number `place`, counted from 1.
fn end_at(alloc: Global, before: u32, last: &[u8], place: u32, error: RequestsError) -> bool {
    let mut rows = RowByRow::new(ASK, before, last);
    let found = read_requests(alloc, &mut rows).err();
    found == Some(error) && rows.begun == place
}

/// Pairs: the number of requests before the last row, and the number of the last row, counted from
/// 1.
const PLACES: &[(u32, u32)] = &[(0, 1), (1, 2), (300, 301)];

#[test]
fn requests_end_at_a_refused_row(rt: HostRuntime) {
    for (last, error) in LAST {
        for (before, place) in PLACES {
            let error = at_row(*error, *place);
            let ends = end_at(rt.alloc(), *before, last, *place, error);
            assert_case(&rt, last, ends);
        }
    }
}

#[test]
fn requests_end_at_a_row_too_many(rt: HostRuntime) {
    let (place, error) = (MOST_ROWS + 1, RequestsError::TooManyRows);
    assert_case(&rt, ASK, end_at(rt.alloc(), MOST_ROWS, ASK, place, error));
}

/// Whether a journal of copies of this row is refused for too many rows, after only one row above
/// the limit was read.
fn has_too_many(alloc: Global, row: &[u8]) -> bool {
    let mut rows = RowByRow::new(row, MOST_ROWS, b"end,1,0\n");
    let found = read_journal(alloc, &mut rows).err();
    found == Some(ReadError::TooManyRows) && rows.begun == MOST_ROWS + 1
}

const ROWS: &[&[u8]] = &[b"drop,1.1.1.1,10.0.0.1\n", b"foo\n"];

#[test]
fn a_journal_ends_at_a_row_too_many(rt: HostRuntime) {
    for row in ROWS {
        assert_case(&rt, row, has_too_many(rt.alloc(), row));
    }
}
