//! Tests live runs, in which batches are applied while workers answer requests. The tests check
//! which batches are applied, and the publisher, the answers and the journal afterwards.
ghost use Rattle.std.specs.Prelude.{◌≡◌, ◌<◌, ◌≤◌, length, All, vec_len};
ghost use Rattle.cspf_publish.specs.declared.limits.TheConstants.{MOST_ASKERS};
ghost use Rattle.cspf_work.specs.declared.limits.TheConstants.{MOST_REQUESTS};

use super::counts::wait_for;
use super::fixtures::{are_at_version_1, cost, link_batch, opened, requests};
use cspf_model::{Batch, Outcome, Request};
use cspf_publish::{Answer, ApplyError, Asker, Publisher};
use cspf_serve::{Gate, Live, NoGate, run_live};
use std::alloc::Global;
use std::io;
use std::io::Write;
use std::process::Abort;
use std::sync::Wait;
use std::sync::atomic::{AtomicU64, Ordering};
use std::test::Fail;
use std::thread::Threads;

/// The values that a live run returns, after its publisher is closed. A live run applies batches
/// while workers answer requests.
#[derive(Drop)]
pub(crate) struct Closed<W> {
    pub(crate) journal: W,
    /// The published version.
    pub(crate) version: u32,
    pub(crate) list: Vec<Answer>,
    pub(crate) askers: Vec<Asker>,
    pub(crate) applied: u32,
    pub(crate) fault: Option<ApplyError>,
}

/// Publishes batches while workers answer requests, and then closes the publisher.
pub(crate) fn run_and_close<W: Write + Drop, G: Gate + Sync, R: Threads + Wait + Abort + Sync>(
    rt: &R,
    alloc: Global,
    opened: (Publisher<W>, Vec<Asker>),
    batches: &[Batch],
    requests: &[Request],
    gate: &G,
) -> Closed<W>
    requires askers { (0 < vec_len opened.1) × (vec_len opened.1 ≤ MOST_ASKERS) }
    requires source { All (λ a. a.source ≡ opened.0.source) opened.1.items }
    requires requests { length requests.now ≤ MOST_REQUESTS }
{
    let (publisher, askers) = opened;
    let ran = run_live(rt, alloc, publisher, askers, batches, requests, gate);
    let Ok(live) = ran else { panic!(rt; "not run") };
    let Live {
        publisher,
        list,
        drawn: _,
        askers,
        applied,
        fault,
    } = live;
    let version = publisher.version();
    Closed {
        journal: publisher.close(rt),
        version,
        list,
        askers,
        applied,
        fault,
    }
}

/// The worker of the second request waits for the journal's first write, and the write waits for
/// this worker.
#[derive(Drop)]
struct Meeting {
    asked: AtomicU64,
    written: AtomicU64,
    faults: AtomicU64,
}

impl Gate for Meeting {
    fn reached(&self, _worker: usize, index: usize) {
        if index == 1 {
            self.asked.fetch_add(1, Ordering::SeqCst);
            wait_for(&self.written, 1, &self.faults);
        }
    }

    fn answered(&self, _worker: usize, _index: usize) {}
}

/// A journal in memory. Its first write waits for the second request.
#[derive(Drop)]
struct MeetingJournal<'a> {
    held: Vec<u8>,
    meeting: &'a Meeting,
}

impl<'a> Write for MeetingJournal<'a> {
    fn write(&mut self, buf: &[u8]) -> io::Result<usize> {
        self.meeting.written.fetch_add(1, Ordering::SeqCst);
        wait_for(&self.meeting.asked, 1, &self.meeting.faults);
        self.held.write(buf)
    }

    fn flush(&mut self) -> io::Result<()> {
        Ok(())
    }
}

/// Whether a batch is applied when there are no requests.
fn applies<R: Threads + Wait + Abort + Sync>(rt: &R, alloc: Global, batches: &[Batch]) -> bool {
    let opened = opened(rt, alloc, Vec::<u8>::new(alloc), 1);
    let left = run_and_close(rt, alloc, opened, batches, &[], &NoGate);
    left.journal.len() == 172
        && (left.version, left.applied, left.fault.is_none()) == (1, 1, true)
        && left.list.is_empty()
        && left.askers.len() == 1
        && are_at_version_1(&left.askers)
}

#[test]
fn applies_alone(rt: HostRuntime) -> Result<(), Fail> {
    let batches = [link_batch(rt.alloc(), 1)?];
    assert!(rt; applies(&rt, rt.alloc(), &batches));
    Ok(())
}

/// Whether there is only one answer: the route over the link, with a version between 1 and the
/// published version.
fn is_one_answer(list: &[Answer], version: u32) -> bool {
    match list {
        [answer] => {
            answer.id == 7
                && cost(&answer.outcome) == 10
                && answer.version >= 1
                && answer.version <= version
        }
        _ => false,
    }
}

/// Answers a request while batches are applied to the database of one link. Returns the number of
/// applied batches, the version at the end, and why a batch is refused, if one is.
fn applied_beside<R: Threads + Wait + Abort + Sync>(
    rt: &R,
    alloc: Global,
    first: &Batch,
    batches: &[Batch],
    requests: &[Request],
) -> (u32, u32, Option<ApplyError>)
    requires { length requests.now ≤ MOST_REQUESTS }
{
    let (mut publisher, mut askers) = opened(rt, alloc, Vec::<u8>::new(alloc), 1);
    assert!(rt; publisher.apply(rt, alloc, first) == Ok(1));
    askers[0].learn(publisher.tell());
    let left = run_and_close(rt, alloc, (publisher, askers), batches, requests, &NoGate);
    assert!(rt; is_one_answer(&left.list, left.version));
    (left.applied, left.version, left.fault)
}

/// Whether an empty batch with this number has the wanted result while a request is answered.
fn applies_beside<R: Threads + Wait + Abort + Sync>(
    rt: &R,
    alloc: Global,
    number: u32,
    wanted: (u32, u32, Option<ApplyError>),
) -> Result<bool, Fail> {
    let first = link_batch(alloc, 1)?;
    let all = requests(alloc, 1)?;
    let changes = Vec::new(alloc);
    let batches = [Batch { number, changes }];
    Ok(applied_beside(rt, alloc, &first, &batches, all.as_slice()) == wanted)
}

/// A batch with the next number is applied, and a batch with another number is refused.
#[test]
fn applies_the_next(rt: HostRuntime) -> Result<(), Fail> {
    assert!(rt; applies_beside(&rt, rt.alloc(), 2, (1, 2, None))?);
    let refused = Some(ApplyError::WrongNumber { expected: 2 });
    assert!(rt; applies_beside(&rt, rt.alloc(), 3, (0, 1, refused))?);
    Ok(())
}

/// Whether the first of two answers has version 0, and the second has version 0 or 1.
fn are_around_a_batch(list: &[Answer]) -> bool {
    match list {
        [first, last] => {
            first.version == 0
                && matches!(&first.outcome, Outcome::UnknownFrom)
                && last.version <= 1
        }
        _ => false,
    }
}

/// Whether the publisher writes a batch while a worker is between two requests.
fn applies_between<R: Threads + Wait + Abort + Sync>(
    rt: &R,
    alloc: Global,
    batches: &[Batch],
    requests: &[Request],
) -> bool
    requires { length requests.now ≤ MOST_REQUESTS }
{
    let meeting = Meeting {
        asked: AtomicU64::new(0),
        written: AtomicU64::new(0),
        faults: AtomicU64::new(0),
    };
    let journal = MeetingJournal {
        held: Vec::new(alloc),
        meeting: &meeting,
    };
    let opened = opened(rt, alloc, journal, 1);
    let left = run_and_close(rt, alloc, opened, batches, requests, &meeting);
    left.journal.held.len() == 172
        && left.applied == 1
        && left.fault.is_none()
        && meeting.faults.load(Ordering::SeqCst) == 0
        && are_around_a_batch(&left.list)
}

#[test]
fn applies_at_once(rt: HostRuntime) -> Result<(), Fail> {
    let batches = [link_batch(rt.alloc(), 1)?];
    let all = requests(rt.alloc(), 2)?;
    assert!(rt; applies_between(&rt, rt.alloc(), &batches, all.as_slice()));
    Ok(())
}
