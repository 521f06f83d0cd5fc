//! Times askers while a publisher publishes, workers that each ask a fixed share of the requests,
//! and workers that draw their requests.

ghost use Rattle.std.specs.Prelude.{◌<◌};

use crate::published::{Nothing, apply_all};
use cspf_model::{Batch, Request};
use cspf_publish::{Asker, MOST_ASKERS, Publisher};
use cspf_work::{MOST_REQUESTS, NoGate, answer_all};
use std::alloc::{AllocError, Global};
use std::io::ErrorKind;
use std::rt::Clock;
use std::sync::Wait;
use std::thread::Threads;
use std::time::Instant;
use std::{io, thread};

/// The most threads that ask requests while a publisher publishes.
const THREADS: usize = 4;

/// An asker, and the number of its answered requests.
#[derive(Drop)]
struct Seat {
    asker: Asker,
    answers: usize,
}

/// Makes a seat for each asker: the asker, and the number of its answered requests, which is 0 at
/// first.
fn seats_of(alloc: Global, askers: Vec<Asker>) -> Result<Vec<Seat>, AllocError> {
    let mut seats = Vec::with_capacity(alloc, askers.len())?;
    for asker in askers {
        seats.push(Seat { asker, answers: 0 })?;
    }
    Ok(seats)
}

/// The number of requests that the askers of all seats have answered.
fn answers_of(seats: &[Seat]) -> usize {
    let mut answers = 0usize;
    for seat in seats {
        answers = answers.saturating_add(seat.answers);
    }
    answers
}

/// Asks the requests whose index modulo `count` is `number`.
fn ask_share(alloc: Global, number: usize, count: usize, requests: &[Request], seat: &mut Seat)
    requires { 0 < count }
{
    for (index, request) in requests.iter().enumerate() {
        if index % count == number && seat.asker.ask(alloc, request).is_ok() {
            seat.answers = seat.answers.saturating_add(1);
        }
    }
}

/// Asks every request.
fn ask_all(alloc: Global, requests: &[Request], seat: &mut Seat) {
    ask_share(alloc, 0, 1, requests, seat);
}

/// Publishes batches while the asker of each seat asks every request. Returns the number of
/// published batches.
fn ask_and_publish<R: AllocGlobal + Threads + Wait + Sync>(
    rt: &R,
    batches: &[Batch],
    requests: &[Request],
    seats: &mut [Seat],
    publisher: &mut Publisher<Nothing>,
) -> usize {
    let alloc = rt.alloc();
    let mut asking = || {
        thread::for_each_mut(
            rt,
            seats,
            THREADS,
            &|_number, seat: &mut Seat| ask_all(alloc, requests, seat),
        )
    };
    let mut publishing = || -> usize { apply_all(rt, batches, publisher) };
    thread::join_mut(rt, &mut asking, &mut publishing).1
}

/// Times askers that ask while a publisher publishes batches, and prints `askers COUNT ANSWERS
/// PUBLISHED MICROSECONDS`.
pub(crate) fn time_askers<R: AllocGlobal + Clock + Print + Threads + Wait + Sync>(
    rt: &R,
    more: &[Batch],
    requests: &[Request],
    askers: Vec<Asker>,
    publisher: &mut Publisher<Nothing>,
) -> io::Result<()> {
    let mut seats = seats_of(rt.alloc(), askers)?;
    let start = Instant::now(rt)?;
    let published = ask_and_publish(rt, more, requests, &mut seats, publisher);
    let took = start.elapsed(rt)?.as_micros();
    println!(rt;
        "askers {} {} {published} {took}",
        seats.len(),
        answers_of(&seats)
    )
}

/// Lets the asker of each seat ask its fixed share of the requests.
fn ask_shares<R: AllocGlobal + Threads + Sync>(rt: &R, requests: &[Request], seats: &mut [Seat]) {
    let (alloc, count) = (rt.alloc(), seats.len());
    if count == 0 {
        return;
    }
    thread::for_each_mut(
        rt,
        seats,
        count,
        &|number, seat: &mut Seat|
            requires { 0 < count }
        { ask_share(alloc, number, count, requests, seat) },
    );
}

/// Times the requests in fixed shares, where each of n askers asks every nth request, and prints
/// `shares COUNT ANSWERS MICROSECONDS`.
pub(crate) fn time_shares<R: AllocGlobal + Clock + Print + Threads + Sync>(
    rt: &R,
    requests: &[Request],
    askers: Vec<Asker>,
) -> io::Result<()> {
    let mut seats = seats_of(rt.alloc(), askers)?;
    let start = Instant::now(rt)?;
    ask_shares(rt, requests, &mut seats);
    let took = start.elapsed(rt)?.as_micros();
    println!(rt; "shares {} {} {took}", seats.len(), answers_of(&seats))
}

/// Times the requests with workers that draw them as `answer_all` does, and prints `draws COUNT
/// ANSWERS MICROSECONDS`.
pub(crate) fn time_draws<R: AllocGlobal + Clock + Print + Threads + Sync>(
    rt: &R,
    requests: &[Request],
    askers: Vec<Asker>,
) -> io::Result<()> {
    let count = askers.len();
    if count == 0 || count > MOST_ASKERS || requests.len() > MOST_REQUESTS {
        return Ok(());
    }
    let start = Instant::now(rt)?;
    let answered = answer_all(rt, rt.alloc(), askers, requests, &NoGate);
    let took = start.elapsed(rt)?.as_micros();
    let Ok(answers) = answered else {
        return Err(io::Error::from(ErrorKind::OutOfMemory));
    };
    println!(rt; "draws {count} {} {took}", answers.list.len())
}
