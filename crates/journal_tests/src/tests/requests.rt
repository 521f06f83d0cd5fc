//! Tests requests that are read or refused, a stream with too many requests, and readers that fail.

use super::{Pieces, assert_case, by_bytes, failing, repeated};
use cspf_model::Request;
use cspf_rows::{MOST_ROWS, RequestsError, RowError, read_requests};
use std::alloc::Global;
use std::test::Fail;

/// Two requests. The second one has no line feed.
const ASKS: &[u8] = b"ask,7,1.1.1.1,2.2.2.2,0,1000,0x0,0x0,0x0,\n\n\
ask,8,2.2.2.2,1.1.1.1,7,0,0x0,0x0,0x0,";

/// The id, the setup priority and the bandwidth of each request of `ASKS`.
const WANTED: [(u64, u8, u64); 2] = [(7, 0, 1000), (8, 7, 0)];

/// Whether the requests have these ids, setup priorities and bandwidths.
fn have_numbers(requests: &[Request], wanted: &[(u64, u8, u64)]) -> bool {
    for (request, (id, setup, bandwidth)) in requests.iter().zip(wanted) {
        if request.id != *id || request.setup != *setup || request.bandwidth != *bandwidth {
            return false;
        }
    }
    requests.len() == wanted.len()
}

/// Texts. Each has a number: the text has this many of the first requests of `WANTED`.
const TEXTS: &[(&[u8], usize)] = &[
    (b"\n", 0),
    (b"ask,7,1.1.1.1,2.2.2.2,0,1000,0x0,0x0,0x0,", 1),
    (ASKS, 2),
];

#[test]
fn requests_in_pieces(rt: HostRuntime) -> Result<(), Fail> {
    for (text, count) in TEXTS {
        let found = read_requests(rt.alloc(), by_bytes(text))?;
        let wanted = WANTED.get(..*count).unwrap_or(&[]);
        assert_case(&rt, text, have_numbers(&found, wanted));
    }
    Ok(())
}

/// Streams of requests that are refused, each with its error.
const REFUSED: &[(&[u8], RequestsError)] = &[
    (
        b"put,1.1.1.1,10.0.12.1,2.2.2.2,10.0.12.2,10,0x1,\
1000,1000,1000,1000,1000,1000,1000,1000",
        RequestsError::NotAsk { row: 1 },
    ),
    (
        b"ask,8,1.1.1.1,2.2.2.2,0,0,0x0,0x0,0x0,\nfoo\nend,1,0\n",
        RequestsError::Bad {
            row: 2,
            error: RowError::Kind,
        },
    ),
    (b"node,1.1.1.1,0\n", RequestsError::NotAsk { row: 1 }),
    (
        b"ask,8,1.1.1.1,2.2.2.2,0,0,0x0,0x0,0x0,\nnode,1.1.1.1,2\nend,1,0\n",
        RequestsError::Bad {
            row: 2,
            error: RowError::Number { field: 3 },
        },
    ),
    (
        b"ask,8,1.1.1.1,2.2.2.2,0,0,0x0,0x0,0x0,\n\nend,1,0\nfoo\n",
        RequestsError::NotAsk { row: 2 },
    ),
    (
        b"ask,8,1.1.1.1,1.1.1.1,0,0,0x0,0x0,0x0,\nend,1,0\n",
        RequestsError::Bad {
            row: 1,
            error: RowError::SameEnds,
        },
    ),
];

/// The error of reading requests, if any.
fn error_of(alloc: Global, reader: Pieces<'_>) -> Option<RequestsError> {
    read_requests(alloc, reader).err()
}

#[test]
fn refused_requests(rt: HostRuntime) {
    for (text, error) in REFUSED {
        let found = error_of(rt.alloc(), by_bytes(text));
        assert_case(&rt, text, found == Some(*error));
    }
}

/// A row that is read as a request.
const ASK: &[u8] = b"ask,8,1.1.1.1,2.2.2.2,0,0,0x0,0x0,0x0,\n";

#[test]
fn requests_are_counted(rt: HostRuntime) -> Result<(), Fail> {
    let most = read_requests(rt.alloc(), repeated(ASK, MOST_ROWS))?.len();
    assert_case(&rt, ASK, most == MOST_ROWS as usize);
    let more = error_of(rt.alloc(), repeated(ASK, MOST_ROWS + 1));
    assert_case(&rt, ASK, more == Some(RequestsError::TooManyRows));
    Ok(())
}

/// Streams whose reader fails after their last byte, each with the error that reading its requests
/// returns.
const FAILING: &[(&[u8], RequestsError)] = &[
    (
        b"ask,7,1.1.1.1,2.2.2.2,0,0,0x0,0x0,0x0,\n",
        RequestsError::Device,
    ),
    (
        b"foo\nend,1,0\n",
        RequestsError::Bad {
            row: 1,
            error: RowError::Kind,
        },
    ),
];

#[test]
fn readers_of_requests_that_fail(rt: HostRuntime) {
    for (text, error) in FAILING {
        let found = error_of(rt.alloc(), failing(text));
        assert_case(&rt, text, found == Some(*error));
    }
}
