//! Tests the calls that workers make of their gate (callbacks before and after each request), and
//! how many workers run at once.

ghost use Rattle.std.specs.Prelude.{◌<◌, ◌≤◌, length};
ghost use Rattle.cspf_publish.specs.declared.limits.TheConstants.{MOST_ASKERS};
ghost use Rattle.cspf_work.specs.declared.limits.TheConstants.{MOST_REQUESTS};

use super::alone::answered_with_a_link;
use super::counts::{Counts, are_ones, wait_for, zeros};
use super::fixtures::{link_batch, opened, requests};
use super::live::run_and_close;
use cspf_model::{Batch, Request};
use cspf_serve::{Gate, run_batch, run_live_rows};
use std::alloc::{AllocError, Global};
use std::fmt::Write;
use std::process::Abort;
use std::sync::Wait;
use std::sync::atomic::{AtomicU64, Ordering};
use std::test::Fail;
use std::thread::Threads;

/// The kind of run over rows that answers the requests.
#[derive(Clone, Copy)]
enum Run {
    /// `run_batch` over an empty journal.
    Batch,
    /// `run_live_rows` over no updates.
    Live,
}

/// The rows of `count` requests over the database without a link.
fn rows_of(alloc: Global, count: usize) -> Result<String, AllocError> {
    let mut rows = String::new(alloc);
    for id in 0..count {
        write!(rows, "ask,{id},1.1.1.1,2.2.2.2,0,0,0x0,0x0,0x0,\n")?;
    }
    Ok(rows)
}

/// The lines that a run writes for the rows of `rows_of`.
fn lines_of(alloc: Global, run: Run, count: usize) -> Result<String, AllocError> {
    let mut lines = String::new(alloc);
    for id in 0..count {
        write!(lines, "ask {id} v0 unknown-from\n")?;
    }
    lines.push_str(match run {
        Run::Batch => "",
        Run::Live => "applied 0\n",
    })?;
    Ok(lines)
}

/// Whether a run without batches and over some requests writes these lines, and nothing to a
/// journal.
fn writes<G: Gate + Sync, T: Threads + Wait + Sync>(
    rt: &T,
    alloc: Global,
    run: Run,
    asked: &[u8],
    lines: &[u8],
    workers: usize,
    gate: &G,
) -> bool
    requires { (0 < workers) × (workers ≤ MOST_ASKERS) }
{
    let none: &[u8] = b"";
    let mut held = Vec::new(alloc);
    let kept: Vec<u8> = Vec::new(alloc);
    let (found, kept) = match run {
        Run::Batch => {
            let found = run_batch(rt, alloc, none, asked, &mut held, workers, false, gate);
            (found, kept)
        }
        Run::Live => run_live_rows(rt, alloc, none, asked, kept, &mut held, workers, gate),
    };
    found == Ok(0) && held.as_slice() == lines && kept.is_empty()
}

/// Whether a run over `count` requests, without batches and with this many workers, answers each
/// request with its line.
fn answers<G: Gate + Sync, T: Threads + Wait + Sync>(
    rt: &T,
    alloc: Global,
    run: Run,
    count: usize,
    workers: usize,
    gate: &G,
) -> Result<bool, AllocError>
    requires { (0 < workers) × (workers ≤ MOST_ASKERS) }
{
    let rows = rows_of(alloc, count)?;
    let lines = lines_of(alloc, run, count)?;
    let (asked, lines) = (rows.as_bytes(), lines.as_bytes());
    Ok(writes(rt, alloc, run, asked, lines, workers, gate))
}

/// Whether `count` workers answer `count` requests. Each worker waits before it computes its
/// answer, until the indexes of all requests are drawn from the counter.
fn answers_at_once<T: Threads + Wait + Sync>(
    rt: &T,
    alloc: Global,
    run: Run,
    count: usize,
) -> Result<bool, AllocError>
    requires { (0 < count) × (count ≤ MOST_ASKERS) }
{
    let gate = Counts::new(alloc, count)?;
    Ok(answers(rt, alloc, run, count, count, &gate)? && gate.is_whole())
}

/// All workers run at once, and call the caller's gate (callbacks before and after each request).
#[test]
fn at_once(rt: HostRuntime) -> Result<(), AllocError> {
    for count in [2, 64] {
        assert!(rt;
            answers_at_once(&rt, rt.alloc(), Run::Batch, count)?
                && answers_at_once(&rt, rt.alloc(), Run::Live, count)?,
            "{count}"
        );
    }
    Ok(())
}

/// Counts how often each callback of the gate is called with each request's index. No worker waits
/// in these callbacks.
#[derive(Drop)]
struct Tally {
    reached: Vec<AtomicU64>,
    answered: Vec<AtomicU64>,
    /// The number of calls with an index that no request has.
    others: AtomicU64,
}

impl Tally {
    fn new(alloc: Global, count: usize) -> Result<Tally, AllocError> {
        Ok(Tally {
            reached: zeros(alloc, count)?,
            answered: zeros(alloc, count)?,
            others: AtomicU64::new(0),
        })
    }

    /// Whether each callback of the gate was called once for each request.
    fn is_whole(&self) -> bool {
        are_ones(&self.reached)
            && are_ones(&self.answered)
            && self.others.load(Ordering::SeqCst) == 0
    }
}

impl Gate for Tally {
    fn reached(&self, _worker: usize, index: usize) {
        let word = self.reached.get(index).unwrap_or(&self.others);
        word.fetch_add(1, Ordering::SeqCst);
    }

    fn answered(&self, _worker: usize, index: usize) {
        let word = self.answered.get(index).unwrap_or(&self.others);
        word.fetch_add(1, Ordering::SeqCst);
    }
}

/// Whether each callback of the gate is called once for each of `count` requests.
fn tells_of_each<T: Threads + Wait + Sync>(
    rt: &T,
    alloc: Global,
    count: usize,
) -> Result<bool, AllocError> {
    let tally = Tally::new(alloc, count)?;
    Ok(answers(rt, alloc, Run::Batch, count, 3, &tally)? && tally.is_whole())
}

/// The run answers its requests in parts, and writes the lines of a part before it answers the next
/// part. There are more requests than one part has. The callbacks of the gate still get each
/// request's index among all requests.
#[test]
fn what_workers_tell_of_many_rows(rt: HostRuntime) -> Result<(), AllocError> {
    assert!(rt; tells_of_each(&rt, rt.alloc(), 32_768 * 2 + 3)?);
    Ok(())
}

/// Notes the gate calls of each worker in order, as hexadecimal digits. The digits 1, 3, 5 and 7
/// say that the indexes of the requests 0 to 3 were drawn. The digits 2, 4, 6 and 8 say that these
/// requests were answered. The worker of request 0 waits with its answer until the requests 1 to 3
/// are answered.
#[derive(Drop)]
struct Notes {
    words: Vec<AtomicU64>,
    /// The number of calls with the number of a worker that doesn't exist.
    others: AtomicU64,
    /// The number of the requests 1 to 3 that are answered.
    answered: AtomicU64,
    faults: AtomicU64,
}

impl Notes {
    fn new(alloc: Global, workers: usize) -> Result<Notes, AllocError> {
        Ok(Notes {
            words: zeros(alloc, workers)?,
            others: AtomicU64::new(0),
            answered: AtomicU64::new(0),
            faults: AtomicU64::new(0),
        })
    }

    fn note(&self, worker: usize, digit: u64) {
        let word = self.words.get(worker).unwrap_or(&self.others);
        let noted = word.load(Ordering::SeqCst);
        word.store(noted.wrapping_mul(16).wrapping_add(digit), Ordering::SeqCst);
    }

    /// Whether one worker answers request 0, and meanwhile the other worker answers the requests 1,
    /// 2 and 3.
    fn are_of_four_requests(&self) -> bool {
        match self.words.as_slice() {
            [first, second] => {
                let noted = (first.load(Ordering::SeqCst), second.load(Ordering::SeqCst));
                (noted == (0x12, 0x345678) || noted == (0x345678, 0x12))
                    && self.others.load(Ordering::SeqCst) == 0
                    && self.faults.load(Ordering::SeqCst) == 0
            }
            _ => false,
        }
    }
}

impl Gate for Notes {
    fn reached(&self, worker: usize, index: usize) {
        self.note(worker, (index as u64).wrapping_mul(2).wrapping_add(1));
        if index == 0 {
            wait_for(&self.answered, 3, &self.faults);
        }
    }

    fn answered(&self, worker: usize, index: usize) {
        self.note(worker, (index as u64).wrapping_mul(2).wrapping_add(2));
        if index != 0 {
            self.answered.fetch_add(1, Ordering::SeqCst);
        }
    }
}

/// Whether one worker drew the index 0, and the other worker drew the indexes 1, 2 and 3.
fn are_zero_and_the_others(drawn: &[Vec<usize>]) -> bool {
    let [first, second] = drawn else {
        return false;
    };
    let (zero, others) = if first.len() == 1 {
        (first, second)
    } else {
        (second, first)
    };
    zero.as_slice() == [0].as_slice() && others.as_slice() == [1, 2, 3].as_slice()
}

/// Whether one of two workers answers request 0, and the other worker answers the other three
/// requests.
fn tell_of_four<R: Threads + Wait + Abort + Sync>(
    rt: &R,
    alloc: Global,
    batch: &Batch,
    requests: &[Request],
    notes: &Notes,
) -> bool
    requires { length requests.now ≤ MOST_REQUESTS }
{
    match answered_with_a_link(rt, alloc, batch, 2, requests, notes) {
        Some(answers) => notes.are_of_four_requests() && are_zero_and_the_others(&answers.drawn),
        None => false,
    }
}

#[test]
fn what_workers_tell(rt: HostRuntime) -> Result<(), Fail> {
    let batch = link_batch(rt.alloc(), 1)?;
    let all = requests(rt.alloc(), 4)?;
    let notes = Notes::new(rt.alloc(), 2)?;
    assert!(rt; tell_of_four(&rt, rt.alloc(), &batch, all.as_slice(), &notes));
    Ok(())
}

/// Whether one worker answers request 0, and the other worker answers the requests 1, 2 and 3,
/// while the run applies a batch.
fn tell_of_four_live<R: Threads + Wait + Abort + Sync>(
    rt: &R,
    alloc: Global,
    batches: &[Batch],
    requests: &[Request],
    notes: &Notes,
) -> bool
    requires { length requests.now ≤ MOST_REQUESTS }
{
    let opened = opened(rt, alloc, Vec::<u8>::new(alloc), 2);
    let left = run_and_close(rt, alloc, opened, batches, requests, notes);
    left.list.len() == 4 && left.applied == 1 && notes.are_of_four_requests()
}

#[test]
fn what_live_workers_tell(rt: HostRuntime) -> Result<(), Fail> {
    let batches = [link_batch(rt.alloc(), 1)?];
    let all = requests(rt.alloc(), 4)?;
    let notes = Notes::new(rt.alloc(), 2)?;
    assert!(rt; tell_of_four_live(&rt, rt.alloc(), &batches, all.as_slice(), &notes));
    Ok(())
}

/// Whether one worker of a run over rows answers request 0, and the other worker answers the
/// requests 1, 2 and 3.
fn tell_of_rows<T: Threads + Wait + Sync>(
    rt: &T,
    alloc: Global,
    run: Run,
) -> Result<bool, AllocError> {
    let notes = Notes::new(alloc, 2)?;
    Ok(answers(rt, alloc, run, 4, 2, &notes)? && notes.are_of_four_requests())
}

#[test]
fn what_workers_tell_of_rows(rt: HostRuntime) -> Result<(), AllocError> {
    assert!(rt; tell_of_rows(&rt, rt.alloc(), Run::Batch)?);
    assert!(rt; tell_of_rows(&rt, rt.alloc(), Run::Live)?);
    Ok(())
}
