//! Tests runs over rows while memory is refused. Each test passes with ample memory. It also passes
//! if any one of its allocations is refused, alone or with all later allocations. In each case the
//! run ends with its whole output and its status, or with the named refusal. Before the run a test
//! allocates only its writer. If memory for the writer is refused, the test ends.

use cspf_serve::{
    Client, ClientError, NoGate, RunError, ServeError, Served, ServedClient, ServedError,
    ServedOptions, SolveError, StreamError, Summary, run_batch, run_serve, run_snapshot, run_solve,
};
use std::alloc::Global;
use std::sync::Wait;
use std::thread::Threads;

/// More bytes than any run in this file writes. A writer with this capacity allocates no more
/// memory.
const ROOM: usize = 200;

/// A batch that sets the link and its reverse, and then a row that is cut short.
const TORN: &[u8] =
    b"put,1.1.1.1,10.0.12.1,2.2.2.2,10.0.12.2,10,0x1,1000,1000,1000,1000,1000,1000,1000,1000\nput,2.2.2.2,10.0.12.2,1.1.1.1,10.0.12.1,10,0x1,0,0,0,0,0,0,0,0\nend,1,2\nput,2.2.2.2,10.0.1";

/// A request for all of the link's bandwidth.
const REQUEST: &[u8] = b"ask,7,1.1.1.1,2.2.2.2,0,1000,0x0,0x0,0x0,\n";

/// The rows that set the link and its reverse, and the row of the request.
const ONE_LINK: &[u8] =
    b"put,1.1.1.1,10.0.12.1,2.2.2.2,10.0.12.2,10,0x1,1000,1000,1000,1000,1000,1000,1000,1000\nput,2.2.2.2,10.0.12.2,1.1.1.1,10.0.12.1,10,0x1,0,0,0,0,0,0,0,0\nend,1,2\nask,7,1.1.1.1,2.2.2.2,0,1000,0x0,0x0,0x0,\n";

const LINES_OF_ONE_LINK: &[u8] =
    b"version 1\nask 7 v1 route cost=10 hops=1 again=no ero=000c140101080a000c022000\n";

/// Two links in both directions, and a request whose route visits its tail-end twice.
const LOOSE_HOP: &[u8] =
    b"put,1.1.1.1,10.0.12.1,2.2.2.2,10.0.12.2,10,0x1,1000,1000,1000,1000,1000,1000,1000,1000\nput,2.2.2.2,10.0.23.2,3.3.3.3,10.0.23.3,10,0x1,1000,1000,1000,1000,1000,1000,1000,1000\nput,3.3.3.3,10.0.23.3,2.2.2.2,10.0.23.2,10,0x1,1000,1000,1000,1000,1000,1000,1000,1000\nput,2.2.2.2,10.0.12.2,1.1.1.1,10.0.12.1,10,0x1,0,0,0,0,0,0,0,0\nend,1,4\nask,5,1.1.1.1,2.2.2.2,0,1,0x0,0x0,0x0,3.3.3.3/32l\n";

const LINES_OF_LOOSE_HOP: &[u8] =
    b"version 1\nask 5 v1 route cost=30 hops=3 again=yes ero=001c140101080a000c02200001080a001703200001080a0017022000\n";

/// Whether a run over some rows, with one batch and one request, writes all lines. If memory is
/// refused, the run has to write a prefix of these lines.
fn ends_whole_or_refused(alloc: Global, script: &[u8], rows: u32, lines: &[u8]) -> bool {
    let Ok(mut held) = Vec::with_capacity(alloc, ROOM) else {
        return true;
    };
    let whole = Summary {
        rows,
        version: 1,
        answers: 1,
        refused: 0,
        too_many: false,
    };
    match run_solve(alloc, script, &mut held) {
        Ok(summary) => summary == whole && held.as_slice() == lines,
        Err(error) => error == SolveError::Memory && lines.starts_with(held.as_slice()),
    }
}

#[test]
fn solves_one_link(rt: HostRuntime) {
    assert!(rt; ends_whole_or_refused(rt.alloc(), ONE_LINK, 4, LINES_OF_ONE_LINK));
}

#[test]
fn solves_a_loose_hop(rt: HostRuntime) {
    assert!(rt; ends_whole_or_refused(rt.alloc(), LOOSE_HOP, 6, LINES_OF_LOOSE_HOP));
}

/// Runs two workers over the journal `TORN` and the request. Returns the run's result and the bytes
/// that the run wrote, or `None` if memory for the writer is refused.
fn run_torn<T: Threads + Wait + Sync>(
    rt: &T,
    alloc: Global,
    accept_torn: bool,
) -> Option<(Result<u8, RunError>, Vec<u8>)> {
    let Ok(mut held) = Vec::with_capacity(alloc, ROOM) else {
        return None;
    };
    let found = run_batch(rt, alloc, TORN, REQUEST, &mut held, 2, accept_torn, &NoGate);
    Some((found, held))
}

/// The journal is refused before the requests are read. So no worker is refused memory.
#[test]
fn refuses_a_torn_journal(rt: HostRuntime) {
    if let Some((found, held)) = run_torn(&rt, rt.alloc(), false) {
        let whole = found == Ok(2) && held.as_slice() == b"journal torn after 1\n".as_slice();
        assert!(rt; whole || found == Err(RunError::Memory));
    }
}

#[test]
fn accepts_a_torn_journal(rt: HostRuntime) {
    if let Some((found, held)) = run_torn(&rt, rt.alloc(), true) {
        let whole = found == Ok(0) && held.as_slice() == LINES_OF_ONE_LINK;
        let refused = found == Err(RunError::Memory)
            || found == Err(RunError::Serve(ServeError::Memory));
        assert!(rt; whole || refused);
    }
}

/// A batch that sets the link and its reverse.
const UPDATES: &[u8] =
    b"put,1.1.1.1,10.0.12.1,2.2.2.2,10.0.12.2,10,0x1,1000,1000,1000,1000,1000,1000,1000,1000\nput,2.2.2.2,10.0.12.2,1.1.1.1,10.0.12.1,10,0x1,0,0,0,0,0,0,0,0\nend,1,2\n";

/// The text that is written to the journal for the batch of `UPDATES`.
const JOURNAL: &[u8] =
    b"put,1.1.1.1,10.0.12.1,2.2.2.2,10.0.12.2,10,0x00000001,1000,1000,1000,1000,1000,1000,1000,1000\nput,2.2.2.2,10.0.12.2,1.1.1.1,10.0.12.1,10,0x00000001,0,0,0,0,0,0,0,0\nend,1,2\n";

#[test]
fn makes_a_snapshot(rt: HostRuntime) {
    let alloc = rt.alloc();
    if let Ok(mut held) = Vec::with_capacity(alloc, ROOM) {
        let found = run_snapshot(alloc, TORN, &mut held, true);
        let whole = found == Ok(0) && held.as_slice() == JOURNAL;
        assert!(rt; whole || found == Err(RunError::Memory));
    }
}

/// The line for the batch if it is published, and the line if memory is refused for it.
const PUBLISHED: &[u8] = b"version 1\n";

const UNPUBLISHED: &[u8] = b"batch 1 refused: memory\n";

/// The reply to the request before the batch is published, and the reply after that.
const REPLY_BEFORE: &[u8] = b"ask 7 v0 unknown-from\n";

const REPLY_BEHIND: &[u8] =
    b"ask 7 v1 route cost=10 hops=1 again=no ero=000c140101080a000c022000\n";

/// Whether the batch is published, and answered by the line of its version. If memory was refused,
/// the journal has to be empty. In that case the batch has the line of its refusal, or the updates
/// ended without a line.
fn is_published_or_refused(said: &[u8], journal: &[u8], ended: Result<(), StreamError>) -> bool {
    match ended {
        Ok(()) => {
            said == PUBLISHED && journal == JOURNAL || said == UNPUBLISHED && journal.is_empty()
        }
        Err(error) => error == StreamError::Memory && said.is_empty() && journal.is_empty(),
    }
}

/// Whether the reply to a client has version 0 or 1, or memory was refused for the client. No other
/// error is allowed, since the client can always read a copy of the published database.
fn is_answered_or_refused(client: &ServedClient<Vec<u8>>) -> bool {
    let replies = client.replies.as_slice();
    match client.end {
        Ok(()) => replies == REPLY_BEFORE || replies == REPLY_BEHIND,
        Err(error) => { error == ClientError::Stream(StreamError::Memory) && replies.is_empty() }
    }
}

/// A list of one client, whose only request is `REQUEST`. The result is `None` if memory is
/// refused.
fn clients(alloc: Global) -> Option<Vec<Client<&'static [u8], Vec<u8>>>> {
    let replies = Vec::with_capacity(alloc, ROOM).ok()?;
    let mut clients = Vec::with_capacity(alloc, 1).ok()?;
    let requests = REQUEST;
    clients.push_reserved(Client { requests, replies });
    Some(clients)
}

/// A writer of lines, and a writer of a journal. The result is `None` if memory is refused.
fn writers(alloc: Global) -> Option<(Vec<u8>, Vec<u8>)> {
    let said = Vec::with_capacity(alloc, ROOM).ok()?;
    Some((said, Vec::with_capacity(alloc, 2 * ROOM).ok()?))
}

/// Whether memory was refused for the run, or for the thread of its client.
fn is_refused(error: ServedError) -> bool {
    error == ServedError::Run(RunError::Memory) || error == ServedError::NoThread { client: 1 }
}

/// Whether a run published the batch and answered the client, or failed to do so because memory was
/// refused.
fn is_served(served: Served<Vec<u8>, Vec<u8>, Vec<u8>>) -> bool {
    let Served {
        status: _,
        updates,
        said,
        journal,
        clients,
        steps: _,
    } = served;
    is_published_or_refused(&said, &journal, updates) && clients.iter().all(is_answered_or_refused)
}

/// Whether a run over the updates and one client publishes the batch and answers the client, as
/// `is_served` checks. If memory is refused before the run begins, the run has to return the
/// writers and the client unchanged.
fn serves<T: Threads + Wait + Sync>(
    rt: &T,
    alloc: Global,
    (said, journal): (Vec<u8>, Vec<u8>),
    clients: Vec<Client<&'static [u8], Vec<u8>>>,
) -> bool {
    if clients.len() != 1 {
        return false;
    }
    let options = ServedOptions {
        trees: 64,
        at_once: 1,
    };
    match run_serve(rt, alloc, UPDATES, said, journal, clients, options) {
        Ok(served) => is_served(served),
        Err((error, said, journal, clients)) => {
            is_refused(error) && said.is_empty() && journal.is_empty() && clients.len() == 1
        }
    }
}

/// The result of `serves` for a run over the updates and one client. The result is `None` if memory
/// for a writer or the client is refused.
fn serves_one<T: Threads + Wait + Sync>(rt: &T, alloc: Global) -> Option<bool> {
    let clients = clients(alloc)?;
    Some(serves(rt, alloc, writers(alloc)?, clients))
}

#[test]
fn serves_one_client(rt: HostRuntime) {
    assert!(rt; serves_one(&rt, rt.alloc()) != Some(false));
}
