//! Tests a client in one thread while its publisher runs in another.

ghost use Rattle.std.specs.Prelude.{◌≡◌};
ghost use Rattle.cspf_client.specs.ServingStates.{IsReady};
ghost use Rattle.cspf_client.specs.SessionStates.{HasGoneForward};

use super::{Narrow, is_left, link_batch, run, seated};
use cspf_client::{ServedClient, ServingClient};
use cspf_model::Batch;
use cspf_publish::Publisher;
use std::alloc::Global;
use std::process::Abort;
use std::sync::Wait;
use std::test::Fail;
use std::thread;
use std::thread::Threads;

/// Runs a client in another thread while the calling thread publishes a batch.
fn run_beside<R: Threads + Wait + Abort + Sync>(
    rt: &R,
    alloc: Global,
    first: &Batch,
    publisher: &mut Publisher<Vec<u8>>,
    serving: &mut ServingClient<&[u8], Narrow>,
)
    requires { IsReady serving.old }
    ensures source { publisher.new.source ≡ publisher.old.source }
    ensures forward { HasGoneForward serving.old.state serving.new.state }
{
    let mut answer = ||
        requires { IsReady serving.now }
        ensures { HasGoneForward serving.entry.now.state serving.exit.now.state }
    { run(rt, alloc, serving) };
    let mut publish = ||
        ensures { publisher.exit.now.source ≡ publisher.entry.now.source }
    {
        let _ = publisher.apply(rt, alloc, first);
    };
    thread::join_mut(rt, &mut answer, &mut publish);
}

/// The final state of a client that sends requests while a publisher runs.
fn served_beside<R: Threads + Wait + Abort + Sync>(
    rt: &R,
    alloc: Global,
    first: &Batch,
    requests: &[u8],
) -> ServedClient<Narrow> {
    let (mut publisher, mut serving) = seated(rt, alloc, requests, 1000);
    run_beside(rt, alloc, first, &mut publisher, &mut serving);
    let known = serving.known().copy();
    serving.meet(publisher.tell());
    publisher.close(rt);
    serving.close(known)
}

/// Whether both rows have their lines. The reply to the first row has version 0 or version 1.
fn is_at_a_version(left: &ServedClient<Narrow>) -> bool {
    let before: &[u8] = b"ask 7 v0 unknown-from\nrow 2 refused: kind\n";
    let after: &[u8] = b"ask 7 v1 route cost=10 hops=1 again=no ero=000c140101080a000c022000\n\
row 2 refused: kind\n";
    is_left(left, before, Ok(()), 1) || is_left(left, after, Ok(()), 1)
}

/// Each row has its line, whether it was answered at version 0 or at version 1.
#[test]
fn client_beside_a_publisher(rt: HostRuntime) -> Result<(), Fail> {
    let first = link_batch(rt.alloc(), 1)?;
    let requests = b"ask,7,1.1.1.1,2.2.2.2,0,1000,0x0,0x0,0x0,\nend,2,0\n";
    let left = served_beside(&rt, rt.alloc(), &first, requests);
    assert!(rt; is_at_a_version(&left));
    Ok(())
}
