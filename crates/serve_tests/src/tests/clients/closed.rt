//! Tests a client that sends a request after its publisher was closed.

use super::{Narrow, is_left, link_batch, run, seated};
use cspf_client::{ClientError, ServedClient};
use cspf_model::Batch;
use std::alloc::Global;
use std::process::Abort;
use std::sync::Wait;
use std::test::Fail;

/// The final state of a client that sends its request after batch 1 was published, and after its
/// publisher was closed.
fn left_closed<R: Wait + Abort>(rt: &R, alloc: Global, first: &Batch) -> ServedClient<Narrow> {
    let requests = b"end,2,0\nask,7,1.1.1.1,2.2.2.2,0,1000,0x0,0x0,0x0,\nend,2,0\n";
    let (mut publisher, mut serving) = seated(rt, alloc, requests, 1000);
    let _ = publisher.apply(rt, alloc, first);
    let told = publisher.tell();
    publisher.close(rt);
    run(rt, alloc, &mut serving);
    let known = serving.known().copy();
    serving.meet(told);
    serving.close(known)
}

/// The rows before the first request are refused. At this request the client can't read a copy of
/// the published database, so it ends with `NoEntry`.
#[test]
fn client_of_a_closed_publisher(rt: HostRuntime) -> Result<(), Fail> {
    let first = link_batch(rt.alloc(), 1)?;
    let left = left_closed(&rt, rt.alloc(), &first);
    let end = Err(ClientError::NoEntry);
    assert!(rt; is_left(&left, b"row 1 refused: kind\n", end, 1));
    Ok(())
}
