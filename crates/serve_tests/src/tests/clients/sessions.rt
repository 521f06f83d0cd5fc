//! Tests a client with several sessions, whose streams are opened one after the other.

ghost use Rattle.std.specs.Prelude.{◌≡◌};
ghost use Rattle.cspf_client.specs.ServingStates.{IsReady};

use super::link_batch;
use crate::tests::{Pieces, in_pieces};
use cspf_client::{
    Client, ClientError, EndOfRequests, Permits, Reopens, Replies, ServedClient, ServingClient,
};
use cspf_model::Batch;
use cspf_publish::{Publisher, open};
use cspf_serve::AnswersNone;
use cspf_stream::StreamError;
use std::alloc::Global;
use std::io;
use std::io::{ErrorKind, Write};
use std::marker::Brand;
use std::process::Abort;
use std::sync::Wait;
use std::sync::ledger::{Blank, Ledger};
use std::test::Fail;

/// The rows of a session, and the number of bytes after which a read of these rows fails.
type Rows<'a> = (&'a [u8], usize);

/// A writer that keeps the lines of all sessions. A line `next` is between the lines of two
/// sessions.
#[derive(Drop)]
struct Turns<'a> {
    held: Vec<u8>,
    /// Whether `end` was called in this session.
    has_ended: bool,
    /// The rows of the sessions that are still to come.
    next: &'a [Rows<'a>],
}

impl Write for Turns<'_> {
    fn write(&mut self, buf: &[u8]) -> io::Result<usize> {
        match self.held.extend_from_slice(buf) {
            Ok(()) => Ok(buf.len()),
            Err(_) => Err(io::Error::from(ErrorKind::OutOfMemory)),
        }
    }

    fn flush(&mut self) -> io::Result<()> {
        Ok(())
    }
}

impl Replies for Turns<'_> {
    ghost use Rattle.std.specs.Prelude.{◌≡◌, true};

    ghost has_ended = { λ turns. turns.has_ended ≡ true };

    fn end(&mut self, _requests: EndOfRequests) {
        self.has_ended = true;
    }
}

impl<'a> Reopens<Pieces<'a>> for Turns<'a> {
    ghost reopens = { λ _ _. Unit {0} };

    fn reopen(self) -> Result<Client<Pieces<'a>, Turns<'a>>, Turns<'a>> {
        if self.next.is_empty() {
            return Err(self);
        }
        let (rows, last) = self.next[0];
        let next = &self.next[1..];
        let mut held = self.held;
        let _ = held.extend_from_slice(b"next\n");
        let requests = in_pieces(rows, usize::MAX, last);
        let replies = Turns {
            held,
            has_ended: false,
            next,
        };
        Ok(Client { requests, replies })
    }
}

/// A publisher that has published the batch `first`, and a client with these sessions. The first
/// session of the client has no rows.
fn seated<'a, R: Wait + Abort>(
    rt: &R,
    alloc: Global,
    first: &Batch,
    sessions: &'a [Rows<'a>],
) -> (Publisher<Vec<u8>>, ServingClient<Pieces<'a>, Turns<'a>>)
    ensures ready { IsReady result.1 }
    ensures first { result.1.refused_before ≡ 0 }
{
    let replies = Turns {
        held: Vec::new(alloc),
        has_ended: false,
        next: sessions,
    };
    let requests = in_pieces(b"", usize::MAX, usize::MAX);
    let client = Client { requests, replies };
    match open(rt, alloc, Vec::<u8>::new(alloc), 1) {
        Ok((mut publisher, mut askers)) => match askers.pop() {
            Some(asker) => {
                let _ = publisher.apply(rt, alloc, first);
                (publisher, ServingClient::new(asker, 1, client))
            }
            None => panic!(rt; "no asker"),
        },
        Err(_) => panic!(rt; "no publisher"),
    }
}

/// Serves all sessions of a client with one permit. The type `L` is the ledger of the permit.
fn serve_with<'a, R: Wait + Abort, L: Ledger>(
    rt: &R,
    alloc: Global,
    blank: Blank,
    client: ServingClient<Pieces<'a>, Turns<'a>>,
) -> ServedClient<Turns<'a>>
    requires ready { IsReady client }
    requires first { client.refused_before ≡ 0 }
    requires name { blank.name ≡ L.name }
    requires parts { (blank.parts ≡ 1) × (L.parts ≡ 1) }
{
    match Permits::<R, L>::new(rt, alloc, 1, 1, blank) {
        Ok(permits) => {
            let client = client.serve::<R, L, AnswersNone>(alloc, &permits);
            let known = client.known().copy();
            client.close(known)
        }
        Err(_) => panic!(rt; "no permits"),
    }
}

/// Serves all sessions of a client with one permit.
fn serve<'a, R: Wait + Abort>(
    rt: &R,
    alloc: Global,
    client: ServingClient<Pieces<'a>, Turns<'a>>,
) -> ServedClient<Turns<'a>>
    requires ready { IsReady client }
    requires first { client.refused_before ≡ 0 }
{
    serve_with::<R, Brand>(rt, alloc, Blank::new(1), client)
}

/// Serves a client with these sessions after a batch was published. If `is_closed`, the publisher is
/// closed before the client begins.
fn served<'a, R: Wait + Abort>(
    rt: &R,
    alloc: Global,
    first: &Batch,
    sessions: &'a [Rows<'a>],
    is_closed: bool,
) -> ServedClient<Turns<'a>> {
    let (publisher, client) = seated(rt, alloc, first, sessions);
    if is_closed {
        publisher.close(rt);
        return serve(rt, alloc, client);
    }
    let left = serve(rt, alloc, client);
    publisher.close(rt);
    left
}

/// Whether a client ended with these lines, this end, this number of refused rows in all sessions,
/// and this number of sessions that it didn't begin.
fn is_left(
    left: &ServedClient<Turns<'_>>,
    lines: &[u8],
    end: Result<(), ClientError>,
    refused: u64,
    unused: usize,
) -> bool {
    left.replies.held.as_slice() == lines
        && left.replies.has_ended
        && left.end == end
        && left.refused == refused
        && left.replies.next.len() == unused
}

const ROWS: &[u8] = b"end,2,0\nask,7,1.1.1.1,2.2.2.2,0,1000,0x0,0x0,0x0,\nend,2,0\nask,8";

/// A session ends at the end of its rows, or at a read that fails in the middle of a row. The rest of
/// this row isn't a row of the next session. Rows count from 1 in each session.
#[test]
fn sessions_in_turn(rt: HostRuntime) -> Result<(), Fail> {
    let first = link_batch(rt.alloc(), 1)?;
    let sessions = [
        (ROWS, usize::MAX),
        (ROWS, 10),
        (ROWS, 55),
        (b"", 0),
        (ROWS, 8),
    ];
    let lines = b"next\nrow 1 refused: kind\n\
ask 7 v1 route cost=10 hops=1 again=no ero=000c140101080a000c022000\n\
row 3 refused: kind\nrow 4 refused: fields\n\
next\nrow 1 refused: kind\n\
next\nrow 1 refused: kind\n\
ask 7 v1 route cost=10 hops=1 again=no ero=000c140101080a000c022000\n\
next\nnext\nrow 1 refused: kind\n";
    let left = served(&rt, rt.alloc(), &first, sessions.as_slice(), false);
    let end = Err(ClientError::Stream(StreamError::Read));
    assert!(rt; is_left(&left, lines, end, 6, 0));
    Ok(())
}

/// No session follows one in which the client can't read a copy of the published database.
#[test]
fn no_session_without_entry(rt: HostRuntime) -> Result<(), Fail> {
    let first = link_batch(rt.alloc(), 1)?;
    let sessions = [
        (b"end,1,0\n".as_slice(), usize::MAX),
        (ROWS, usize::MAX),
        (ROWS, usize::MAX),
    ];
    let lines = b"next\nrow 1 refused: kind\nnext\nrow 1 refused: kind\n";
    let left = served(&rt, rt.alloc(), &first, sessions.as_slice(), true);
    assert!(rt; is_left(&left, lines, Err(ClientError::NoEntry), 2, 1));
    Ok(())
}
