//! Tests that each line is written and flushed before the next row is read.

use super::{Refusals, lines_of, no_events, rows_of};
use crate::tests::assert_case;
use cspf_rows::open_records;
use cspf_stream::answer_rows;
use std::alloc::Global;

const ROWS: [&[u8]; 5] = [
    b"end,1,0\n",
    b"put,1.1.1.1\n",
    b"\n",
    b"\"ask\"\n",
    b"bye\n",
];

const ANSWERS: &[u8] = b"row 2 refused: fields\nrow 3 refused: fields\nrow 4 refused: kind\n";

/// Whether all lines are written, and each line is flushed once before the next read.
fn is_flushed_in_time(alloc: Global) -> bool {
    let events = no_events();
    let reader = rows_of(&ROWS, false, &events);
    let mut writer = lines_of(alloc, 1000, 1000, &events);
    let mut answering = Refusals { refused: 0 };
    let mut rows = open_records(alloc, reader);
    let found = answer_rows(&0, alloc, &mut rows, &mut writer, &mut answering);
    found.is_ok()
        && writer.held.as_slice() == ANSWERS
        && !events.is_late.get()
        && events.flushes.get() == 3
        && answering.refused == 3
}

/// The line of each row is written and flushed before the next row is read. If the line of a row is
/// empty, nothing is written or flushed for it.
#[test]
fn lines_before_the_next_row(rt: HostRuntime) {
    assert_case(&rt, ANSWERS, is_flushed_in_time(rt.alloc()));
}

/// Whether nothing is written for a stream.
fn is_answered_nothing(alloc: Global, text: &[u8]) -> bool {
    let mut written = Vec::new(alloc);
    let mut answering = Refusals { refused: 0 };
    let mut rows = open_records(alloc, text);
    let found = answer_rows(&0, alloc, &mut rows, &mut written, &mut answering);
    found.is_ok() && written.is_empty() && answering.refused == 0
}

/// Nothing is written for a stream without rows.
#[test]
fn no_rows(rt: HostRuntime) {
    let is_empty = is_answered_nothing(rt.alloc(), b"");
    let are_lines = is_answered_nothing(rt.alloc(), b"\n\n");
    assert_case(&rt, b"", is_empty && are_lines);
}
