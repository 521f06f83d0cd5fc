//! Tests workers while memory is refused, as by `rt try --test --fail-alloc N -- memory`. A call
//! answers all requests, or returns the error that memory is refused. After that its askers (which
//! compute the workers' answers) still answer. If memory is refused before the call, the test ends.
ghost use Rattle.std.specs.Prelude.{◌≡◌, ◌≤◌, All, IfOk, length, vec_len};

use crate::tests::workers::fixtures::{both_ways, request};
use cspf_model::{Batch, Outcome, Request};
use cspf_publish::{Answer, ApplyError, AskError, Asker, OpenError, Publisher, open};
use cspf_serve::{Live, NoGate, ServeError, answer_all, run_live};
use std::alloc::{AllocError, Global};
use std::process::Abort;
use std::sync::Wait;
use std::thread::Threads;

/// The texts of the two batches.
const TEXTS: &[u8] = b"put,1.1.1.1,10.0.12.1,2.2.2.2,10.0.12.2,10,0x00000001,\
1000,1000,1000,1000,1000,1000,1000,1000\n\
put,2.2.2.2,10.0.12.2,1.1.1.1,10.0.12.1,10,0x00000001,0,0,0,0,0,0,0,0\nend,1,2\n\
put,1.1.1.1,10.0.12.1,2.2.2.2,10.0.12.2,20,0x00000001,\
1000,1000,1000,1000,1000,1000,1000,1000\n\
put,2.2.2.2,10.0.12.2,1.1.1.1,10.0.12.1,20,0x00000001,0,0,0,0,0,0,0,0\nend,2,2\n";

/// The length of each of the two texts, in bytes.
const TEXT: usize = 172;

/// The batch with this number, 1 or 2. The batch sets a link and the link's reverse. The metric is
/// 10 times the number.
fn batch<R: Abort>(rt: &R, alloc: Global, number: u32) -> Result<Batch, AllocError> {
    let metric = if number == 1 { 10 } else { 20 };
    let Ok(changes) = both_ways(metric) else {
        panic!(rt; "no link")
    };
    Ok(Batch {
        number,
        changes: Vec::from_slice(alloc, &changes)?,
    })
}

/// `count` requests. The id of each request is its index. Requests with an even id are from
/// 1.1.1.1, and the others are from 9.9.9.9.
fn requests<R: Abort>(rt: &R, alloc: Global, count: usize) -> Result<Vec<Request>, AllocError>
    ensures { IfOk result (λ all. vec_len all ≤ 1000) }
{
    let mut all = Vec::with_capacity(alloc, count)?;
    for index in 0..count {
        let from = if index % 2 == 0 {
            0x01010101
        } else {
            0x09090909
        };
        match request(index as u64, from, 1000) {
            Ok(one) => all.push(one)?,
            Err(_) => panic!(rt; "no request"),
        }
    }
    assert!(rt; all.len() == count && count <= 1000);
    Ok(all)
}

/// A publisher that has published no batch, and its two askers (which compute the workers'
/// answers). The publisher's journal has capacity for the texts of both batches. So it allocates no
/// more memory.
fn opened<R: Wait + Abort>(
    rt: &R,
    alloc: Global,
) -> Result<(Publisher<Vec<u8>>, Vec<Asker>), AllocError>
    ensures count { IfOk result (λ opened. vec_len opened.1 ≡ 2) }
    ensures source { IfOk result (λ opened. All (λ a. a.source ≡ opened.0.source) opened.1.items) }
{
    let journal = Vec::with_capacity(alloc, TEXTS.len())?;
    match open(rt, alloc, journal, 2) {
        Ok(opened) => Ok(opened),
        Err((error, journal)) => {
            assert!(rt; error == OpenError::Memory && journal.is_empty());
            Err(AllocError)
        }
    }
}

/// Whether this is the right answer to the request with this index, in the database of the version
/// that the answer names.
fn is_right(index: usize, answer: &Answer) -> bool {
    let right = match &answer.outcome {
        Outcome::Route(route) => {
            let has_cost = match answer.version {
                1 => route.cost() == 10,
                2 => route.cost() == 20,
                _ => false,
            };
            index % 2 == 0 && has_cost && route.links().len() == 1
        }
        Outcome::UnknownFrom => index % 2 == 1 || answer.version == 0,
        _ => false,
    };
    right && answer.id == index as u64
}

/// Whether these are the right answers to `count` requests, each with a version between `least` and
/// `most`.
fn are_right(list: &[Answer], count: usize, least: u32, most: u32) -> bool {
    for (index, answer) in list.iter().enumerate() {
        if !is_right(index, answer) || answer.version < least || answer.version > most {
            return false;
        }
    }
    list.len() == count
}

/// Whether each of `count` indexes was drawn from the counter once, by one of two workers.
fn are_drawn_once(drawn: &[Vec<usize>], count: usize) -> bool {
    let [first, second] = drawn else {
        return false;
    };
    for index in 0..count {
        if first.contains(&index) == second.contains(&index) {
            return false;
        }
    }
    first.len().wrapping_add(second.len()) == count
}

/// Whether an asker (which computes a worker's answers) answers each request at this version, or
/// returns the error that memory is refused.
fn still_answers(alloc: Global, asker: &mut Asker, requests: &[Request], version: u32) -> bool {
    for (index, request) in requests.iter().enumerate() {
        let right = match asker.ask(alloc, request) {
            Ok(answer) => is_right(index, &answer) && answer.version == version,
            Err(error) => error == AskError::Memory,
        };
        if !right {
            return false;
        }
    }
    true
}

/// Whether these are two askers (which compute the workers' answers) that still answer.
fn still_answer(alloc: Global, askers: &mut [Asker], requests: &[Request], version: u32) -> bool {
    let [first, second] = askers else {
        return false;
    };
    still_answers(alloc, first, requests, version)
        && still_answers(alloc, second, requests, version)
}

/// Whether two workers answer all requests at this version, or memory is refused. Also returns the
/// askers, which compute the workers' answers.
fn answered<R: Threads + Sync>(
    rt: &R,
    alloc: Global,
    askers: Vec<Asker>,
    requests: &[Request],
    version: u32,
) -> (bool, Vec<Asker>)
    requires askers { vec_len askers ≡ 2 }
    requires requests { length requests.now ≤ 1000 }
{
    match answer_all(rt, alloc, askers, requests, &NoGate) {
        Ok(answers) => (
            are_right(&answers.list, requests.len(), version, version)
                && are_drawn_once(&answers.drawn, requests.len()),
            answers.askers,
        ),
        Err((error, askers)) => (error == ServeError::Memory, askers),
    }
}

/// Whether a batch is published, or memory is refused for it, and two workers answer after that.
fn answer_after<R: Threads + Wait + Sync>(
    rt: &R,
    alloc: Global,
    opened: (Publisher<Vec<u8>>, Vec<Asker>),
    first: &Batch,
    requests: &[Request],
) -> bool
    requires askers { vec_len opened.1 ≡ 2 }
    requires requests { length requests.now ≤ 1000 }
{
    let (mut publisher, askers) = opened;
    let applied = publisher.apply(rt, alloc, first);
    let version = publisher.version();
    let published = match version {
        0 => applied == Err(ApplyError::Memory),
        _ => applied == Ok(1),
    };
    let (right, mut askers) = answered(rt, alloc, askers, requests, version);
    let answered = still_answer(alloc, &mut askers, requests, version);
    publisher.close(rt);
    published && version <= 1 && right && answered
}

/// Publishes the batch. Returns whether two workers then answer `count` requests.
fn answers<R: Threads + Wait + Abort + Sync>(
    rt: &R,
    alloc: Global,
    count: usize,
) -> Result<bool, AllocError> {
    let (first, all) = (batch(rt, alloc, 1)?, requests(rt, alloc, count)?);
    let opened = opened(rt, alloc)?;
    Ok(answer_after(rt, alloc, opened, &first, all.as_slice()))
}

#[test]
fn two_requests(rt: HostRuntime) {
    assert!(rt; answers(&rt, rt.alloc(), 2) != Ok(false));
}

/// Each worker's list of answers grows while the other worker computes its answers.
#[test]
fn hundred_requests(rt: HostRuntime) {
    assert!(rt; answers(&rt, rt.alloc(), 100) != Ok(false));
}

/// Returns whether a live run is right. Also returns the run's publisher, and the askers, which
/// compute the workers' answers. The run is right if its answers are right, all batches are applied
/// (or all batches before one for which memory was refused), and the askers know the applied
/// batches. A live run applies batches while workers answer requests.
fn parts_of(
    live: Live<Vec<u8>>,
    count: usize,
    batches: usize,
) -> (bool, Publisher<Vec<u8>>, Vec<Asker>) {
    let Live {
        applied,
        fault,
        list,
        drawn,
        askers,
        publisher,
    } = live;
    let version = publisher.version();
    let ended = if version as usize == batches {
        fault.is_none()
    } else {
        fault == Some(ApplyError::Memory)
    };
    let right = ended
        && applied == version
        && askers.iter().all(|asker| asker.seen() == version)
        && are_right(&list, count, 0, version)
        && are_drawn_once(&drawn, count);
    (right, publisher, askers)
}

/// Whether two workers answer requests while batches are applied, and their askers (which compute
/// the answers) still answer after that.
fn answer_beside<R: Threads + Wait + Sync>(
    rt: &R,
    alloc: Global,
    opened: (Publisher<Vec<u8>>, Vec<Asker>),
    batches: &[Batch],
    requests: &[Request],
) -> bool
    requires askers { vec_len opened.1 ≡ 2 }
    requires source { All (λ a. a.source ≡ opened.0.source) opened.1.items }
    requires requests { length requests.now ≤ 1000 }
{
    let (publisher, askers) = opened;
    let ran = run_live(rt, alloc, publisher, askers, batches, requests, &NoGate);
    let (right, publisher, mut askers) = match ran {
        Ok(live) => parts_of(live, requests.len(), batches.len()),
        Err((error, publisher, askers)) => (error == ServeError::Memory, publisher, askers),
    };
    let version = publisher.version();
    let answered = still_answer(alloc, &mut askers, requests, version);
    let journal = publisher.close(rt);
    right && answered && is_journal(&journal, version)
}

/// Whether two workers answer five requests while batches are applied.
fn runs_live<R: Threads + Wait + Abort + Sync>(
    rt: &R,
    alloc: Global,
    batches: &[Batch],
) -> Result<bool, AllocError> {
    let all = requests(rt, alloc, 5)?;
    let opened = opened(rt, alloc)?;
    Ok(answer_beside(rt, alloc, opened, batches, all.as_slice()))
}

/// Whether a journal has the texts of the batches up to this version.
fn is_journal(journal: &[u8], version: u32) -> bool {
    match version {
        0 => journal.is_empty(),
        1 => journal == &TEXTS[..TEXT],
        _ => journal == TEXTS,
    }
}

fn runs_one_batch<R: Threads + Wait + Abort + Sync>(
    rt: &R,
    alloc: Global,
) -> Result<bool, AllocError> {
    runs_live(rt, alloc, &[batch(rt, alloc, 1)?])
}

fn runs_two_batches<R: Threads + Wait + Abort + Sync>(
    rt: &R,
    alloc: Global,
) -> Result<bool, AllocError> {
    runs_live(rt, alloc, &[batch(rt, alloc, 1)?, batch(rt, alloc, 2)?])
}

#[test]
fn one_batch(rt: HostRuntime) {
    assert!(rt; runs_one_batch(&rt, rt.alloc()) != Ok(false));
}

#[test]
fn two_batches(rt: HostRuntime) {
    assert!(rt; runs_two_batches(&rt, rt.alloc()) != Ok(false));
}
