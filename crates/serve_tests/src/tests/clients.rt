//! Defines helpers for the tests of clients: a publisher with its batches, and a writer that
//! accepts a given number of bytes.

mod closed;
mod dialogues;
mod sessions;
mod threads;

ghost use Rattle.std.specs.Prelude.{◌≡◌};
ghost use Rattle.cspf_client.specs.ServingStates.{IsReady};
ghost use Rattle.cspf_client.specs.SessionStates.{HasGoneForward};

use cspf_addr::{Addr, Mask};
use cspf_client::{
    Client, ClientError, EndOfRequests, Permits, Replies, ServedClient, ServingClient,
};
use cspf_model::{Batch, Change, Link};
use cspf_publish::{Publisher, open};
use cspf_serve::AnswersNone;
use std::alloc::Global;
use std::io;
use std::io::{ErrorKind, Write};
use std::marker::Brand;
use std::process::Abort;
use std::sync::Wait;
use std::sync::ledger::{Blank, Ledger};
use std::test::Fail;

/// A batch with this number. It sets a link of metric 10 from 1.1.1.1 to 2.2.2.2, with 1,000 bytes
/// per second unreserved. The link's local address is 10.0.12.1. The batch also sets the link's
/// reverse, with no bandwidth.
fn link_batch(alloc: Global, number: u32) -> Result<Batch, Fail> {
    let (from, local) = (Addr::new(0x01010101), Addr::new(0x0a000c01));
    let (to, remote) = (Addr::new(0x02020202), Addr::new(0x0a000c02));
    let link = Link::new(from, local, to, remote, 10, Mask::new(1), [1000; 8])?;
    let back = Link::new(to, remote, from, local, 10, Mask::new(1), [0; 8])?;
    Ok(Batch {
        number,
        changes: Vec::from_slice(alloc, &[Change::Put(link), Change::Put(back)])?,
    })
}

/// A publisher without batches, and a client with these requests. The client's writer accepts up to
/// `most` bytes of replies.
fn seated<'a, R: Wait + Abort>(
    rt: &R,
    alloc: Global,
    requests: &'a [u8],
    most: usize,
) -> (Publisher<Vec<u8>>, ServingClient<&'a [u8], Narrow>)
    ensures client { result.1.state.known.source ≡ result.0.source }
    ensures ready { IsReady result.1 }
{
    let replies = Narrow {
        held: Vec::new(alloc),
        most,
        ends: 0,
    };
    let client = Client { requests, replies };
    match open(rt, alloc, Vec::<u8>::new(alloc), 1) {
        Ok((publisher, mut askers)) => match askers.pop() {
            Some(asker) => (publisher, ServingClient::new(asker, 1, client)),
            None => panic!(rt; "no asker"),
        },
        Err(_) => panic!(rt; "no publisher"),
    }
}

/// Runs a client with one permit. The type `L` is the ledger of the permit.
fn run_with<R: Wait + Abort, L: Ledger>(
    rt: &R,
    alloc: Global,
    blank: Blank,
    serving: &mut ServingClient<&[u8], Narrow>,
)
    requires ready { IsReady serving.old }
    requires name { blank.name ≡ L.name }
    requires parts { (blank.parts ≡ 1) × (L.parts ≡ 1) }
    ensures { HasGoneForward serving.old.state serving.new.state }
{
    match Permits::<R, L>::new(rt, alloc, 1, 1, blank) {
        Ok(permits) => serving.run::<R, L, AnswersNone>(alloc, &permits),
        Err(_) => panic!(rt; "no permits"),
    }
}

/// Runs a client with one permit.
fn run<R: Wait + Abort>(rt: &R, alloc: Global, serving: &mut ServingClient<&[u8], Narrow>)
    requires { IsReady serving.old }
    ensures { HasGoneForward serving.old.state serving.new.state }
{
    run_with::<R, Brand>(rt, alloc, Blank::new(1), serving)
}

/// A writer that accepts bytes until it has `most` bytes, and then fails.
#[derive(Drop)]
struct Narrow {
    held: Vec<u8>,
    most: usize,
    /// The number of calls of `end`.
    ends: usize,
}

impl Replies for Narrow {
    ghost use Rattle.std.specs.Prelude.{◌<◌};

    ghost has_ended = { λ narrow. 0 < narrow.ends };

    fn end(&mut self, _requests: EndOfRequests) {
        self.ends = self.ends.saturating_add(1);
    }
}

impl Write for Narrow {
    fn write(&mut self, buf: &[u8]) -> io::Result<usize> {
        let taken = buf.len().min(self.most.saturating_sub(self.held.len()));
        if taken == 0 {
            return Err(io::Error::from(ErrorKind::BrokenPipe));
        }
        match self.held.extend_from_slice(&buf[..taken]) {
            Ok(()) => Ok(taken),
            Err(_) => Err(io::Error::from(ErrorKind::OutOfMemory)),
        }
    }

    fn flush(&mut self) -> io::Result<()> {
        Ok(())
    }
}

/// Applies the batch `first`, and then runs a client with these requests. Returns the client's
/// result.
fn served<R: Wait + Abort>(
    rt: &R,
    alloc: Global,
    first: &Batch,
    requests: &[u8],
    most: usize,
) -> ServedClient<Narrow> {
    let (mut publisher, mut serving) = seated(rt, alloc, requests, most);
    let _ = publisher.apply(rt, alloc, first);
    run(rt, alloc, &mut serving);
    let known = serving.known().copy();
    serving.meet(publisher.tell());
    publisher.close(rt);
    serving.close(known)
}

/// Whether a client ended with these replies, this end and this number of refused rows.
fn is_left(
    left: &ServedClient<Narrow>,
    replies: &[u8],
    end: Result<(), ClientError>,
    refused: u64,
) -> bool {
    left.replies.held.as_slice() == replies
        && left.end == end
        && left.refused == refused
        && left.replies.ends == 1
}
