//! Tests a stream with a limit on its rows: only the first rows are answered, and nothing is
//! flushed.

use super::{Refusals, lines_of, no_events, rows_of};
use crate::tests::assert_case;
use cspf_rows::open_records;
use cspf_stream::{StreamError, answer_first_rows};
use std::alloc::Global;

const ROWS: [&[u8]; 3] = [b"a\n", b"end,1,0\n", b"b\n"];

/// The lines that answer all rows of `ROWS`.
const ANSWERS: &[u8] = b"row 1 refused: kind\nrow 3 refused: kind\n";

/// Whether a stream with this limit on its rows is answered with the result `wanted`, and the first
/// `length` bytes of `ANSWERS` are written.
fn ends(alloc: Global, limit: u64, wanted: Result<(), StreamError>, length: usize) -> bool {
    let events = no_events();
    let reader = rows_of(&ROWS, false, &events);
    let mut writer = lines_of(alloc, 1000, 0, &events);
    let mut answering = Refusals { refused: 0 };
    let mut rows = open_records(alloc, reader);
    let (written, ended) = answer_first_rows(
        &0,
        alloc,
        limit,
        false,
        &mut rows,
        &mut writer,
        &mut answering,
    );
    ended.map_err(|stop| StreamError::from(stop)) == wanted
        && written == length as u128
        && writer.held.len() == length
        && ANSWERS.starts_with(writer.held.as_slice())
}

#[test]
fn no_more_rows_than_the_limit(rt: HostRuntime) {
    let more = Err(StreamError::TooManyRows);
    let are_stopped = ends(rt.alloc(), 0, more, 0)
        && ends(rt.alloc(), 1, more, 20)
        && ends(rt.alloc(), 2, more, 20);
    assert_case(&rt, ANSWERS, are_stopped && ends(rt.alloc(), 3, Ok(()), 40));
}
