//! Tests the lines that a client gets: for requests, for other rows, before the first batch is
//! published, and with a writer that accepts too few bytes.

use super::{is_left, link_batch, served};
use cspf_client::ClientError;
use cspf_model::Batch;
use cspf_stream::StreamError;
use std::alloc::Global;
use std::process::Abort;
use std::sync::Wait;
use std::test::Fail;

const REQUESTS: &[u8] = b"ask,7,1.1.1.1,2.2.2.2,0,1000,0x0,0x0,0x0,\nend,2,0\n\nask,8\n\
ask,9,2.2.2.2,1.1.1.1,0,1000,0x0,0x0,0x0,\n";

const REPLIES: &[u8] = b"ask 7 v1 route cost=10 hops=1 again=no ero=000c140101080a000c022000\n\
row 2 refused: kind\nrow 3 refused: fields\nask 9 v1 none\n";

/// Publishes the batch `first`, if the publisher accepts it, and runs a client. Returns whether the
/// client's writer has the first `most` bytes of these replies, the client ended with `end`, and
/// `refused` of its rows were refused.
fn is_answered<R: Wait + Abort>(
    rt: &R,
    alloc: Global,
    first: &Batch,
    (replies, most): (&[u8], usize),
    end: Result<(), ClientError>,
    refused: u64,
) -> bool {
    let left = served(rt, alloc, first, REQUESTS, most);
    let taken = replies.get(..most).unwrap_or(replies);
    is_left(&left, taken, end, refused)
}

/// Requests are answered and other rows are refused, in the order of the rows.
#[test]
fn requests_and_other_rows(rt: HostRuntime) -> Result<(), Fail> {
    let first = link_batch(rt.alloc(), 1)?;
    assert!(rt; is_answered(&rt, rt.alloc(), &first, (REPLIES, 1000), Ok(()), 2));
    Ok(())
}

/// If a batch isn't accepted, version 0 is still the published version. Version 0 has no routers.
#[test]
fn version_0(rt: HostRuntime) -> Result<(), Fail> {
    let second = link_batch(rt.alloc(), 2)?;
    let replies = b"ask 7 v0 unknown-from\nrow 2 refused: kind\nrow 3 refused: fields\n\
ask 9 v0 unknown-from\n";
    assert!(rt; is_answered(&rt, rt.alloc(), &second, (replies, 1000), Ok(()), 2));
    Ok(())
}

/// A client's writer accepts only `most` bytes. Exactly these bytes of the replies are written. The
/// write that fails ends the client.
#[test]
fn replies_that_are_not_taken(rt: HostRuntime) -> Result<(), Fail> {
    let first = link_batch(rt.alloc(), 1)?;
    let end = Err(ClientError::Stream(StreamError::Write));
    for (most, refused) in [(0, 0), (67, 0), (68, 1), (90, 2), (121, 2)] {
        assert!(rt;
            is_answered(&rt, rt.alloc(), &first, (REPLIES, most), end, refused),
            "{most}"
        );
    }
    Ok(())
}
