//! The timed runs of publishers.
//!
//! First each batch after the batches of the network is published and timed. Then 1, 2 or 4 askers
//! run at once, while these batches are published. Each of them asks all requests. Finally the
//! requests are divided among 1, 2 or 4 workers, in two ways. In fixed shares, each of n workers
//! asks every nth request. By draws, each worker draws its next request.

use crate::published::{Nothing, apply_all, time_batches};
use crate::workers::{time_askers, time_draws, time_shares};
use cspf_model::{Batch, Request};
use cspf_publish::open;
use std::io;
use std::io::ErrorKind;
use std::rt::Clock;
use std::sync::Wait;
use std::thread::Threads;

/// The kind of a timed run.
#[derive(Clone, Copy)]
enum Timed {
    Batches,
    Askers,
    Shares,
    Draws,
}

/// The kinds of the timed runs in order, each with its number of askers.
const ALL: [(Timed, usize); 10] = [
    (Timed::Batches, 1),
    (Timed::Askers, 1),
    (Timed::Askers, 2),
    (Timed::Askers, 4),
    (Timed::Shares, 1),
    (Timed::Draws, 1),
    (Timed::Shares, 2),
    (Timed::Draws, 2),
    (Timed::Shares, 4),
    (Timed::Draws, 4),
];

/// Times one run on a publisher that has published the network.
fn time_one<R: AllocGlobal + Clock + Print + Threads + Wait + Sync>(
    rt: &R,
    (load, more): (&[Batch], &[Batch]),
    requests: &[Request],
    timed: Timed,
    count: usize,
) -> io::Result<()> {
    let Ok((mut publisher, askers)) = open(rt, rt.alloc(), Nothing, count) else {
        return Err(io::Error::from(ErrorKind::OutOfMemory));
    };
    apply_all(rt, load, &mut publisher);
    let printed = match timed {
        Timed::Batches => time_batches(rt, more, &mut publisher),
        Timed::Askers => time_askers(rt, more, requests, askers, &mut publisher),
        Timed::Shares => time_shares(rt, requests, askers),
        Timed::Draws => time_draws(rt, requests, askers),
    };
    publisher.close(rt);
    printed
}

/// Times all runs of the list `ALL`.
pub(crate) fn time_publisher<R: AllocGlobal + Clock + Print + Threads + Wait + Sync>(
    rt: &R,
    load: &[Batch],
    more: &[Batch],
    requests: &[Request],
) -> io::Result<()> {
    for (timed, count) in ALL {
        time_one(rt, (load, more), requests, timed, count)?;
    }
    Ok(())
}
