//! Defines helpers for the tests: an assertion, batches, requests, publishers, a short form of
//! answers, and a writer that fails.
ghost use Rattle.std.specs.Prelude.{◌≡◌};

use cspf_addr::{Addr, Hops, Mask};
use cspf_model::{Batch, Change, Link, LinkError, Outcome, Request, RequestError};
use cspf_publish::{Answer, ApplyError, AskError, Asker, Publisher, open};
use std::alloc::{AllocError, Global};
use std::io;
use std::io::{ErrorKind, Write};
use std::process::Abort;
use std::sync::Wait;
use std::test::Fail;

/// If the case doesn't hold, prints the case's name and number, and stops the test.
pub(super) fn assert_case<R: Abort>(rt: &R, name: &str, number: usize, holds: bool) {
    assert!(rt; holds, "{name} {number}");
}

pub(super) const ONE: u32 = 0x01010101; // 1.1.1.1

pub(super) const TWO: u32 = 0x02020202; // 2.2.2.2

/// The text of batch 1, 172 bytes.
pub(super) const TEXT: &[u8] = b"put,1.1.1.1,10.0.12.1,2.2.2.2,10.0.12.2,10,0x00000001,\
1000,1000,1000,1000,1000,1000,1000,1000\n\
put,2.2.2.2,10.0.12.2,1.1.1.1,10.0.12.1,10,0x00000001,0,0,0,0,0,0,0,0\nend,1,2\n";

/// A link of metric 10 from 1.1.1.1 to 2.2.2.2, with 1,000 bytes per second unreserved. Its local
/// address is 10.0.12.1.
pub(super) fn only_link() -> Result<Link, LinkError> {
    let (from, local) = (Addr::new(ONE), Addr::new(0x0a000c01));
    let (to, remote) = (Addr::new(TWO), Addr::new(0x0a000c02));
    Link::new(from, local, to, remote, 10, Mask::new(1), [1000; 8])
}

/// The reverse of `only_link`, without unreserved bandwidth.
pub(super) fn back() -> Result<Link, LinkError> {
    let link = only_link()?;
    let (from, local) = (link.to, link.remote);
    let (to, remote) = (link.from, link.local);
    Link::new(from, local, to, remote, link.metric, link.group, [0; 8])
}

/// The two changes that set `only_link` and its reverse.
pub(super) fn both_ways() -> Result<[Change; 2], LinkError> {
    Ok([Change::Put(only_link()?), Change::Put(back()?)])
}

pub(super) fn batch(alloc: Global, number: u32, changes: &[Change]) -> Result<Batch, AllocError> {
    Ok(Batch {
        number,
        changes: Vec::from_slice(alloc, changes)?,
    })
}

/// Batch 1, which sets `only_link` and its reverse.
pub(super) fn first_batch(alloc: Global) -> Result<Batch, Fail> {
    Ok(batch(alloc, 1, &both_ways()?)?)
}

/// An empty batch with this number.
pub(super) fn empty_batch(alloc: Global, number: u32) -> Batch {
    Batch {
        number,
        changes: Vec::new(alloc),
    }
}

/// Batch 1, and request 7 for a route over the link of this batch.
pub(super) fn batch_and_request(alloc: Global) -> Result<(Batch, Request), Fail> {
    Ok((first_batch(alloc)?, request(7, ONE, TWO, 1000)?))
}

/// Applies an empty batch with this number, and returns the publisher's result.
pub(super) fn apply_empty<W: Write, R: Wait>(
    rt: &R,
    alloc: Global,
    publisher: &mut Publisher<W>,
    number: u32,
) -> Result<u32, ApplyError>
    ensures { publisher.new.source ≡ publisher.old.source }
{
    let empty = empty_batch(alloc, number);
    publisher.apply(rt, alloc, &empty)
}

/// A publisher that has published no batch, and its only asker (which computes the answers).
pub(super) fn opened<W: Write + Drop, R: Wait + Abort>(
    rt: &R,
    alloc: Global,
    journal: W,
) -> (Publisher<W>, Asker)
    ensures { result.1.source ≡ result.0.source }
{
    match open(rt, alloc, journal, 1) {
        Ok((publisher, mut askers)) => match askers.pop() {
            Some(asker) => (publisher, asker),
            None => panic!(rt; "no asker"),
        },
        Err(_) => panic!(rt; "no publisher"),
    }
}

/// The short form of an outcome.
#[derive(Clone, Copy, PartialEq, Eq)]
pub(super) enum Said {
    /// A route with this cost and this number of links.
    Route(u64, usize),
    NoRoute,
    UnknownFrom,
    UnknownTo,
}

pub(super) fn said_by(outcome: &Outcome) -> Said {
    match outcome {
        Outcome::Route(route) => Said::Route(route.cost(), route.links().len()),
        Outcome::NoRoute => Said::NoRoute,
        Outcome::UnknownFrom => Said::UnknownFrom,
        Outcome::UnknownTo => Said::UnknownTo,
    }
}

/// Whether two outcomes are the same route, or both `none`, or both `unknown-from`.
pub(super) fn is_same(a: &Outcome, b: &Outcome) -> bool {
    match (a, b) {
        (Outcome::Route(a), Outcome::Route(b)) => a.links() == b.links(),
        (Outcome::NoRoute, Outcome::NoRoute) => true,
        (Outcome::UnknownFrom, Outcome::UnknownFrom) => true,
        _ => false,
    }
}

/// Whether the answer has this id, version and outcome.
pub(super) fn says(answer: &Result<Answer, AskError>, id: u64, version: u32, wanted: Said) -> bool {
    match answer {
        Ok(answer) => {
            answer.id == id && answer.version == version && said_by(&answer.outcome) == wanted
        }
        Err(_) => false,
    }
}

/// Whether an asker (which computes the answers) answers the request at this version with this
/// outcome.
pub(super) fn is_answered(
    alloc: Global,
    asker: &mut Asker,
    request: &Request,
    version: u32,
    wanted: Said,
) -> bool
    ensures { asker.new.source ≡ asker.old.source }
{
    says(&asker.ask(alloc, request), request.id, version, wanted)
}

/// Checks each version from 1 to `last`. `is_right` publishes the version, and returns whether the
/// answers at the version are right.
pub(super) fn check_versions<R: Abort, F: FnMut(u32) -> Result<bool, Fail>>(
    rt: &R,
    last: u32,
    mut is_right: F,
) -> Result<(), Fail>
    requires { F.IsAlwaysCallable is_right }
{
    for number in 1..=last {
        let is_right = is_right(number)?;
        assert_case(rt, "a version", number as usize, is_right);
    }
    Ok(())
}

/// Whether the journal has the text of batch 1, followed by the text `behind`.
pub(super) fn is_text(journal: &[u8], behind: &[u8]) -> bool {
    journal.strip_prefix(TEXT) == Some(behind)
}

/// A request for this bandwidth at setup priority 0, over links of any groups.
pub(super) fn request(
    id: u64,
    from: u32,
    to: u32,
    bandwidth: u64,
) -> Result<Request, RequestError> {
    let (from, to) = (Addr::new(from), Addr::new(to));
    let any = Mask::new(0);
    Request::new(id, from, to, 0, bandwidth, any, any, any, Hops::none())
}

/// A writer that accepts at most `width` bytes in each write. When it has `most` bytes, one write
/// fails or accepts no bytes. Later writes succeed again.
#[derive(Drop)]
pub(super) struct Narrow {
    pub held: Vec<u8>,
    pub width: usize,
    pub most: usize,
    pub fault: Option<ErrorKind>,
}

/// A writer that has no bytes yet.
pub(super) fn empty_writer(
    alloc: Global,
    width: usize,
    most: usize,
    fault: Option<ErrorKind>,
) -> Narrow {
    Narrow {
        held: Vec::new(alloc),
        width,
        most,
        fault,
    }
}

impl Write for Narrow {
    fn write(&mut self, buf: &[u8]) -> io::Result<usize> {
        let room = self.most.saturating_sub(self.held.len());
        if room == 0 {
            self.most = usize::MAX;
            return self.fault.map_or(Ok(0), |kind| Err(io::Error::from(kind)));
        }
        let taken = buf.len().min(self.width).min(room);
        match self.held.extend_from_slice(&buf[..taken]) {
            Ok(()) => Ok(taken),
            Err(_) => Err(io::Error::from(ErrorKind::OutOfMemory)),
        }
    }

    fn flush(&mut self) -> io::Result<()> {
        Err(io::Error::from(ErrorKind::Unsupported))
    }
}
