//! Tests what was read and written when a read, the answer to a row, a write or a flush fails.

use super::{Refusals, lines_of, no_events, rows_of};
use crate::tests::assert_case;
use cspf_rows::open_records;
use cspf_stream::{StreamError, answer_rows};
use std::alloc::Global;

const ROWS: [&[u8]; 3] = [b"a\n", b"end,1,0\n", b"b\n"];

const ANSWERS: &[u8] = b"row 1 refused: kind\nrow 3 refused: kind\n";

/// A fault that stops a stream, and the numbers of bytes written and rows read before it.
struct Fault {
    /// The number of bytes that the writer accepts before a write fails.
    most: usize,
    /// The number of flushes that succeed before one fails.
    most_flushes: u32,
    /// The number of the row at which memory is refused, or 0 if it isn't refused. The first row
    /// has the number 1.
    no_memory_at: u64,
    /// The error with which the stream stops. In each case the read after the last row fails.
    error: StreamError,
    /// The number of bytes that are written.
    written: usize,
    /// The number of rows of the stream that were read.
    read: usize,
    /// The number of rows of the stream that were refused.
    refused: u64,
}

const FAULTS: [Fault; 7] = [
    Fault {
        most: 100,
        most_flushes: 9,
        no_memory_at: 0,
        error: StreamError::Read,
        written: 40,
        read: 3,
        refused: 2,
    },
    Fault {
        most: 0,
        most_flushes: 9,
        no_memory_at: 0,
        error: StreamError::Write,
        written: 0,
        read: 1,
        refused: 1,
    },
    Fault {
        most: 25,
        most_flushes: 9,
        no_memory_at: 0,
        error: StreamError::Write,
        written: 25,
        read: 3,
        refused: 2,
    },
    Fault {
        most: 40,
        most_flushes: 0,
        no_memory_at: 0,
        error: StreamError::Flush,
        written: 20,
        read: 1,
        refused: 1,
    },
    Fault {
        most: 40,
        most_flushes: 1,
        no_memory_at: 0,
        error: StreamError::Flush,
        written: 40,
        read: 3,
        refused: 2,
    },
    Fault {
        most: 40,
        most_flushes: 9,
        no_memory_at: 2,
        error: StreamError::Memory,
        written: 20,
        read: 2,
        refused: 1,
    },
    Fault {
        most: 19,
        most_flushes: 9,
        no_memory_at: 1,
        error: StreamError::Memory,
        written: 0,
        read: 1,
        refused: 0,
    },
];

/// Whether the stream of `ROWS` stops with the error of `fault`, and the numbers of written bytes,
/// read rows and refused rows are those of `fault`.
fn is_stopped(alloc: Global, fault: &Fault) -> bool {
    let events = no_events();
    let mut reader = rows_of(&ROWS, true, &events);
    let mut writer = lines_of(alloc, fault.most, fault.most_flushes, &events);
    let mut answering = Refusals { refused: 0 };
    let mut rows = open_records(alloc, &mut reader);
    let found = answer_rows(
        &fault.no_memory_at,
        alloc,
        &mut rows,
        &mut writer,
        &mut answering,
    );
    found.map_err(|stop| StreamError::from(stop)) == Err(fault.error)
        && writer.held.len() == fault.written
        && ANSWERS.starts_with(writer.held.as_slice())
        && rows.get_ref().at == fault.read
        && answering.refused == fault.refused
}

#[test]
fn what_stands_at_a_fault(rt: HostRuntime) {
    for fault in &FAULTS {
        let written = ANSWERS.get(..fault.written).unwrap_or(ANSWERS);
        assert_case(&rt, written, is_stopped(rt.alloc(), fault));
    }
}
