//! Tests how workers draw numbers from a counter: two workers in turn, and workers in several
//! threads. A draw reads the counter and adds 1 to it in one step.

ghost use Rattle.std.specs.Prelude.{◌≡◌, ◌+◌, ◌<◌, ◌≤◌, length, IfOk, vec_len};

use cspf_jobs::{Counter, Drawer, FirstSeat, MOST_DRAWERS};
use std::alloc::{AllocError, Global};
use std::process::Abort;
use std::sync::atomic::{AtomicU64, Ordering};
use std::test::Fail;
use std::thread;
use std::thread::Threads;

/// Draws one number from the counter. Returns three numbers: the draws that the worker has left
/// before, the number that is drawn, and the draws that the worker has left afterwards. All three
/// are 0 if the worker has no draws left.
fn drawn(drawer: &mut Drawer<'_>) -> [u64; 3]
    ensures { drawer.new.counter ≡ drawer.old.counter }
{
    if drawer.left() == 0 {
        return [0; 3];
    }
    [drawer.left(), drawer.draw(), drawer.left()]
}

/// Two workers draw numbers from a counter in turn, and then the counter is closed.
#[test]
fn in_turn(rt: HostRuntime) -> Result<(), Fail> {
    let (counter, mut first) = Counter::open(rt.alloc(), 2)?;
    let mut one = counter.split(&mut first);
    let mut two = counter.split(&mut first);
    let drawn = [drawn(&mut one), drawn(&mut two), drawn(&mut one)];
    let drawers = Vec::from_array(rt.alloc(), [one, two])?;
    let last = counter.join(first, drawers);
    let count = counter.close(last);
    assert!(rt; drawn == [[3, 0, 2], [3, 1, 2], [2, 2, 1]] && count == 3);
    Ok(())
}

/// Without requests, a worker may draw once from the counter. The number that it draws is not the
/// index of a request.
#[test]
fn no_requests(rt: HostRuntime) -> Result<(), Fail> {
    let (counter, mut first) = Counter::open(rt.alloc(), 0)?;
    let shares = first.shares();
    let mut drawer = counter.split(&mut first);
    let drawn = drawn(&mut drawer);
    let drawers = Vec::from_array(rt.alloc(), [drawer])?;
    let last = counter.join(first, drawers);
    let count = counter.close(last);
    assert!(rt; (shares, drawn, count) == (MOST_DRAWERS, [1, 0, 0], 1));
    Ok(())
}

/// Makes `count` new drawers, with which workers draw numbers from the counter. The drawers get
/// their draws from the first seat, which has the draws that no drawer has yet.
fn drawers_of<'a>(
    alloc: Global,
    counter: &'a Counter,
    first: &mut FirstSeat,
    count: usize,
) -> Result<Vec<Drawer<'a>>, AllocError>
    requires counter { first.old.counter ≡ counter.now }
    requires enough { count ≤ first.old.shares }
    ensures { IfOk result (λ all. vec_len all ≡ count) }
{
    let mut all = Vec::with_capacity(alloc, count)?;
    for _ in 0..count {
        all.push(counter.split(first))?;
    }
    Ok(all)
}

/// Draws numbers from the counter until a drawn number is not the index of a request. Counts each
/// number before this last one.
fn count_drawn(counts: &[AtomicU64], drawer: &mut Drawer<'_>) {
    while drawer.left() != 0 {
        let number = drawer.draw();
        if number >= counts.len() as u64 {
            return;
        }
        counts[number as usize].fetch_add(1, Ordering::SeqCst);
    }
}

/// Checks that workers in several threads draw the index of each request from the counter exactly
/// once.
fn each_is_drawn_once<R: Threads + Abort + Sync>(
    rt: &R,
    alloc: Global,
    requests: usize,
    count: usize,
) -> Result<(), Fail>
    requires requests { requests ≤ 1000 }
    requires count { (0 < count) × (count ≤ MOST_DRAWERS) }
{
    let mut counts = Vec::with_capacity(alloc, requests)?;
    for _ in 0..requests {
        counts.push(AtomicU64::new(0))?;
    }
    let (counter, mut first) = Counter::open(alloc, requests as u64)?;
    let mut drawers = drawers_of(alloc, &counter, &mut first, count)?;
    thread::for_each_mut(
        rt,
        drawers.as_mut_slice(),
        count,
        &|_, drawer: &mut Drawer<'_>| { count_drawn(&counts, drawer) },
    );
    assert!(rt; counts.iter().all(|drawn| drawn.load(Ordering::SeqCst) == 1));
    Ok(())
}

/// Eight threads draw the indexes of 1,000 requests from one counter.
#[test]
fn from_eight_threads(rt: HostRuntime) -> Result<(), Fail> {
    each_is_drawn_once(&rt, rt.alloc(), 1000, 8)
}

/// The greatest allowed number of workers draw the index of the only request.
#[test]
fn one_request_and_all_drawers(rt: HostRuntime) -> Result<(), Fail> {
    each_is_drawn_once(&rt, rt.alloc(), 1, MOST_DRAWERS)
}
