//! Tests the order in which a worker draws a request's index, calls the gate, and computes the
//! answer. Also tests that any number of workers answers all requests.

ghost use Rattle.std.specs.Prelude.{◌<◌, ◌≤◌, length};
ghost use Rattle.cspf_publish.specs.declared.limits.TheConstants.{MOST_ASKERS};
ghost use Rattle.cspf_work.specs.declared.limits.TheConstants.{MOST_REQUESTS};

use super::counts::wait_for;
use super::fixtures::{link_batch, opened, requests};
use super::live::run_and_close;
use cspf_model::{Batch, Request};
use cspf_publish::{Answer, ApplyError};
use cspf_serve::{Gate, RunError, run_live_rows};
use std::alloc::{AllocError, Global};
use std::fmt::Write as FmtWrite;
use std::io;
use std::io::{ErrorKind, Write};
use std::process::Abort;
use std::sync::Wait;
use std::sync::atomic::{AtomicU64, Ordering};
use std::test::Fail;
use std::thread::Threads;

/// The number of bytes that are written to the journal for a batch of a link and its reverse.
const TEXT: usize = 172;

/// A gate (callbacks before and after each request). In one of its callbacks each worker waits,
/// before or after it computes an answer, until the first batch is published. The publisher doesn't
/// publish the first batch until a worker waits.
#[derive(Drop)]
struct Order {
    /// Whether workers wait before they compute an answer. If false, they wait after it.
    before: bool,
    there: AtomicU64,
    published: AtomicU64,
    faults: AtomicU64,
}

impl Order {
    fn new(before: bool) -> Order {
        Order {
            before,
            there: AtomicU64::new(0),
            published: AtomicU64::new(0),
            faults: AtomicU64::new(0),
        }
    }

    fn hold(&self) {
        self.there.fetch_add(1, Ordering::SeqCst);
        wait_for(&self.published, 1, &self.faults);
    }

    /// Whether workers waited `count` times in the callbacks of the gate, and no wait took too
    /// long.
    fn has_held(&self, count: u64) -> bool {
        self.faults.load(Ordering::SeqCst) == 0 && self.there.load(Ordering::SeqCst) == count
    }
}

impl Gate for Order {
    fn reached(&self, _worker: usize, _index: usize) {
        if self.before {
            self.hold();
        }
    }

    fn answered(&self, _worker: usize, _index: usize) {
        if !self.before {
            self.hold();
        }
    }
}

/// A journal in memory. Its write of the first batch waits until a worker waits in a callback of
/// the gate. Its write of the second batch fails.
#[derive(Drop)]
struct OrderJournal<'a> {
    held: Vec<u8>,
    order: &'a Order,
}

impl<'a> Write for OrderJournal<'a> {
    fn write(&mut self, buf: &[u8]) -> io::Result<usize> {
        if self.held.is_empty() {
            wait_for(&self.order.there, 1, &self.order.faults);
        }
        if self.held.len() >= TEXT {
            self.order.published.fetch_add(1, Ordering::SeqCst);
            return Err(io::Error::from(ErrorKind::StorageFull));
        }
        self.held.write(buf)
    }

    fn flush(&mut self) -> io::Result<()> {
        Ok(())
    }
}

/// Whether these are two answers with these versions.
fn are_of(list: &[Answer], versions: (u32, u32)) -> bool {
    match list {
        [first, second] => first.version == versions.0 && second.version == versions.1,
        _ => false,
    }
}

/// One worker waits before or after it computes each of two answers. Returns whether the answers
/// have these versions.
fn are_held<R: Threads + Wait + Abort + Sync>(
    rt: &R,
    alloc: Global,
    batches: &[Batch],
    requests: &[Request],
    before: bool,
    versions: (u32, u32),
) -> bool
    requires { length requests.now ≤ MOST_REQUESTS }
{
    let order = Order::new(before);
    let journal = OrderJournal {
        held: Vec::new(alloc),
        order: &order,
    };
    let opened = opened(rt, alloc, journal, 1);
    let left = run_and_close(rt, alloc, opened, batches, requests, &order);
    left.fault == Some(ApplyError::Journal { written: 0 })
        && left.version == 1
        && order.has_held(2)
        && are_of(&left.list, versions)
}

/// The worker waits in a callback of the gate until the first batch is published. If it waits after
/// each answer, the first answer is computed before this batch is published, and the second answer
/// after it. If it waits before each answer, both answers are computed after this batch is
/// published.
#[test]
fn reached_and_answered_are_around_the_ask(rt: HostRuntime) -> Result<(), Fail> {
    let batches = [link_batch(rt.alloc(), 1)?, link_batch(rt.alloc(), 2)?];
    let all = requests(rt.alloc(), 2)?;
    for (before, versions) in [(false, (0, 1)), (true, (1, 1))] {
        assert!(rt;
            are_held(&rt, rt.alloc(), &batches, all.as_slice(), before, versions),
            "{before}"
        );
    }
    Ok(())
}

/// Two batches of one link. The first batch also sets the link's reverse.
const UPDATES: &[u8] =
    b"put,1.1.1.1,10.0.12.1,2.2.2.2,10.0.12.2,10,0x1,1000,1000,1000,1000,1000,1000,1000,1000
put,2.2.2.2,10.0.12.2,1.1.1.1,10.0.12.1,10,0x1,0,0,0,0,0,0,0,0
end,1,2
put,1.1.1.1,10.0.12.1,2.2.2.2,10.0.12.2,10,0x1,1000,1000,1000,1000,1000,1000,1000,1000
end,2,1
";

/// The number of requests. It is larger than the number of workers.
const COUNT: u32 = 130;

fn request_rows(alloc: Global) -> Result<String, AllocError> {
    let mut rows = String::new(alloc);
    for id in 0..COUNT {
        write!(rows, "ask,{id},1.1.1.1,2.2.2.2,0,1000,0x0,0x0,0x0,\n")?;
    }
    Ok(rows)
}

/// The lines of a run whose answers to the requests of `request_rows` have version 1. The run
/// publishes one batch, and writing the next batch to the journal fails.
fn lines_at_version_1(alloc: Global) -> Result<String, AllocError> {
    let mut lines = String::new(alloc);
    for id in 0..COUNT {
        write!(
            lines,
            "ask {id} v1 route cost=10 hops=1 again=no ero=000c140101080a000c022000\n"
        )?;
    }
    lines.push_str("applied 1\nbatch 2 refused: journal 0\n")?;
    Ok(lines)
}

/// Each worker waits before it computes an answer, until the first of two batches is published.
/// Returns the result of the run over the requests, its lines, and whether a worker waited at each
/// request.
fn run_held<T: Threads + Wait + Sync>(
    rt: &T,
    alloc: Global,
    updates: &[u8],
    requests: &[u8],
    workers: usize,
) -> (Result<u8, RunError>, Vec<u8>, bool)
    requires { (0 < workers) × (workers ≤ MOST_ASKERS) }
{
    let order = Order::new(true);
    let journal = OrderJournal {
        held: Vec::new(alloc),
        order: &order,
    };
    let mut lines = Vec::new(alloc);
    let (found, journal) = run_live_rows(
        rt, alloc, updates, requests, journal, &mut lines, workers, &order,
    );
    let whole = journal.held.len() == TEXT && order.has_held(COUNT as u64);
    (found, lines, whole)
}

/// Whether `run_held` with this many workers writes these lines and returns the status 2, and a
/// worker waited at each request.
fn is_held<T: Threads + Wait + Sync>(
    rt: &T,
    alloc: Global,
    input: (&[u8], &[u8]),
    workers: usize,
    lines: &[u8],
) -> bool
    requires { (0 < workers) × (workers ≤ MOST_ASKERS) }
{
    let (found, written, whole) = run_held(rt, alloc, input.0, input.1, workers);
    found == Ok(2) && written.as_slice() == lines && whole
}

/// One worker and 64 workers write the same lines.
#[test]
fn any_number_of_workers(rt: HostRuntime) -> Result<(), AllocError> {
    let requests = request_rows(rt.alloc())?;
    let lines = lines_at_version_1(rt.alloc())?;
    let (input, lines) = ((UPDATES, requests.as_bytes()), lines.as_bytes());
    for workers in [1, 64] {
        assert!(rt;
            is_held(&rt, rt.alloc(), input, workers, lines),
            "{workers}"
        );
    }
    Ok(())
}
