//! Tests workers alone: their answers, the order of the answers, and which worker answers a
//! request.
ghost use Rattle.std.specs.Prelude.{◌<◌, ◌≤◌, length};
ghost use Rattle.cspf_publish.specs.declared.limits.TheConstants.{MOST_ASKERS};
ghost use Rattle.cspf_work.specs.declared.limits.TheConstants.{MOST_REQUESTS};

use super::counts::Counts;
use super::fixtures::{are_at_version_1, cost, link_batch, opened, request, requests};
use cspf_model::{Batch, Outcome, Request};
use cspf_publish::Answer;
use cspf_serve::{Answers, Gate, NoGate, answer_all, answer_latest};
use std::alloc::Global;
use std::process::Abort;
use std::sync::Wait;
use std::test::Fail;
use std::thread::Threads;

/// The answers of workers after the link is published.
pub(crate) fn answered_with_a_link<G: Gate + Sync, R: Threads + Wait + Abort + Sync>(
    rt: &R,
    alloc: Global,
    batch: &Batch,
    askers: usize,
    requests: &[Request],
    gate: &G,
) -> Option<Answers>
    requires askers { (0 < askers) × (askers ≤ MOST_ASKERS) }
    requires requests { length requests.now ≤ MOST_REQUESTS }
{
    let (mut publisher, askers) = opened(rt, alloc, Vec::<u8>::new(alloc), askers);
    let applied = publisher.apply(rt, alloc, batch);
    let answered = answer_all(rt, alloc, askers, requests, gate);
    publisher.close(rt);
    assert!(rt; applied == Ok(1));
    answered.ok()
}

/// Whether `count` workers answered one request each, and computed the answers at the version that
/// has the link.
fn is_one_each(answers: &Answers, count: usize) -> bool {
    answers.list.len() == count
        && answers.drawn.len() == count
        && answers.askers.len() == count
        && are_of_the_link(&answers.list)
        && have_one_each(&answers.drawn)
        && are_at_version_1(&answers.askers)
}

fn are_of_the_link(list: &[Answer]) -> bool {
    for answer in list {
        if answer.id != 7 || answer.version != 1 || cost(&answer.outcome) != 10 {
            return false;
        }
    }
    true
}

/// Whether each worker drew the index of one request from the counter.
fn have_one_each(drawn: &[Vec<usize>]) -> bool {
    drawn.iter().all(|indexes| indexes.len() == 1)
}

/// Whether the workers answer one request each, if there are as many workers as requests.
fn answer_one_each<R: Threads + Wait + Abort + Sync>(
    rt: &R,
    alloc: Global,
    batch: &Batch,
    requests: &[Request],
    gate: &Counts,
) -> bool
    requires { (0 < length requests.now) × (length requests.now ≤ MOST_ASKERS) }
{
    let count = requests.len();
    match answered_with_a_link(rt, alloc, batch, count, requests, gate) {
        Some(answers) => gate.is_whole() && is_one_each(&answers, count),
        None => false,
    }
}

/// Whether `count` workers run at once on `count` requests. Each worker waits before it computes
/// its answer, until the indexes of all requests are drawn from the counter.
fn answer_at_once<R: Threads + Wait + Abort + Sync>(
    rt: &R,
    alloc: Global,
    count: usize,
) -> Result<bool, Fail>
    requires { (0 < count) × (count ≤ MOST_ASKERS) }
{
    let batch = link_batch(alloc, 1)?;
    let all = requests(alloc, count)?;
    let gate = Counts::new(alloc, count)?;
    Ok(answer_one_each(rt, alloc, &batch, all.as_slice(), &gate))
}

/// Two workers run at once, and eight workers do, too.
#[test]
fn at_once(rt: HostRuntime) -> Result<(), Fail> {
    assert!(rt; answer_at_once(&rt, rt.alloc(), 2)? && answer_at_once(&rt, rt.alloc(), 8)?);
    Ok(())
}

/// The answers that a test expects from the workers.
#[derive(Clone, Copy)]
enum Wanted {
    /// No answers, since the three workers have no requests.
    Nothing,
    /// One answer, since there is one request. There are 64 workers, the most that are allowed.
    One,
    /// The answers of 64 workers to 1,000 requests, in the order of the requests.
    InOrder,
}

fn is_wanted(answers: &Answers, wanted: Wanted) -> bool {
    let (answered, asked) = (answers.list.len(), answers.askers.len());
    match wanted {
        Wanted::Nothing => answered == 0 && asked == 3 && have_drawn(&answers.drawn, 3, 0),
        Wanted::One => answered == 1 && have_drawn(&answers.drawn, 64, 1),
        Wanted::InOrder => answered == 1000 && asked == 64 && are_in_order(&answers.list),
    }
}

/// Whether there are `workers` workers, and `wanted` of them drew the index of a request from the
/// counter.
fn have_drawn(drawn: &[Vec<usize>], workers: usize, wanted: usize) -> bool {
    let mut count = 0usize;
    for indexes in drawn {
        if !indexes.is_empty() {
            count = count.saturating_add(1);
        }
    }
    drawn.len() == workers && count == wanted
}

/// Whether workers return the wanted answers.
fn gives<R: Threads + Wait + Abort + Sync>(
    rt: &R,
    alloc: Global,
    workers: usize,
    requests: &[Request],
    wanted: Wanted,
) -> Result<bool, Fail>
    requires workers { (0 < workers) × (workers ≤ MOST_ASKERS) }
    requires requests { length requests.now ≤ MOST_REQUESTS }
{
    let batch = link_batch(alloc, 1)?;
    match answered_with_a_link(rt, alloc, &batch, workers, requests, &NoGate) {
        Some(answers) => Ok(is_wanted(&answers, wanted)),
        None => Ok(false),
    }
}

/// Without requests there are no answers, and the askers (the objects that compute the workers'
/// answers) are returned. One request is answered by one worker.
#[test]
fn no_requests_and_one(rt: HostRuntime) -> Result<(), Fail> {
    assert!(rt; gives(&rt, rt.alloc(), 3, &[], Wanted::Nothing)?);
    let one = requests(rt.alloc(), 1)?;
    assert!(rt; gives(&rt, rt.alloc(), 64, one.as_slice(), Wanted::One)?);
    Ok(())
}

/// 1,000 requests of three kinds: for bandwidth that the link has, for more bandwidth than the link
/// has, and from a router that isn't in the database.
fn requests_of_three_kinds(alloc: Global) -> Result<Vec<Request>, Fail> {
    let mut all = Vec::with_capacity(alloc, 1000)?;
    for index in 0..1000u64 {
        let (from, bandwidth) = match index % 3 {
            0 => (0x01010101, 1000),
            1 => (0x01010101, 1001),
            _ => (0x09090909, 0),
        };
        all.push(request(index, from, bandwidth)?)?;
    }
    Ok(all)
}

/// Whether this is the answer to the request with this index.
fn is_in_order(index: usize, answer: &Answer) -> bool {
    let right = match index % 3 {
        0 => cost(&answer.outcome) == 10,
        1 => matches!(&answer.outcome, Outcome::NoRoute),
        _ => matches!(&answer.outcome, Outcome::UnknownFrom),
    };
    right && answer.id == index as u64 && answer.version == 1
}

fn are_in_order(list: &[Answer]) -> bool {
    for (index, answer) in list.iter().enumerate() {
        if !is_in_order(index, answer) {
            return false;
        }
    }
    true
}

/// 64 workers answer the requests, and the answers are in the order of the requests.
#[test]
fn in_order(rt: HostRuntime) -> Result<(), Fail> {
    let all = requests_of_three_kinds(rt.alloc())?;
    assert!(rt; all.len() == 1000);
    assert!(rt; gives(&rt, rt.alloc(), 64, all.as_slice(), Wanted::InOrder)?);
    Ok(())
}

/// Whether the answers of two workers have the last version, and the workers' askers (which compute
/// the answers) know this version afterwards.
fn answer_at_the_last<R: Threads + Wait + Abort + Sync>(
    rt: &R,
    alloc: Global,
    batch: &Batch,
    requests: &[Request],
) -> bool
    requires { length requests.now ≤ MOST_REQUESTS }
{
    let (mut publisher, askers) = opened(rt, alloc, Vec::<u8>::new(alloc), 2);
    let applied = publisher.apply(rt, alloc, batch);
    let answered = answer_latest(rt, alloc, &mut publisher, askers, requests, &NoGate);
    publisher.close(rt);
    match answered {
        Ok(answers) => applied == Ok(1) && are_two_of_the_link(&answers),
        Err(_) => false,
    }
}

fn are_two_of_the_link(answers: &Answers) -> bool {
    answers.list.len() == 2
        && answers.askers.len() == 2
        && are_of_the_link(&answers.list)
        && are_at_version_1(&answers.askers)
}

#[test]
fn at_the_last_version(rt: HostRuntime) -> Result<(), Fail> {
    let batch = link_batch(rt.alloc(), 1)?;
    let all = requests(rt.alloc(), 2)?;
    assert!(rt; answer_at_the_last(&rt, rt.alloc(), &batch, all.as_slice()));
    Ok(())
}
