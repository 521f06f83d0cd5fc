//! The group of workers that answers the requests of one call. Each worker draws the indexes of its
//! requests from a shared counter. Also the memory that is allocated before the workers begin, and
//! the workers' results.
ghost use Rattle.std.specs.Prelude.{◌≡◌, ◌+◌, ◌<◌, ◌≤◌, [], List, length, map, All, IfOk, IfErr, IfSome, IsNone, vec_len, vec_capacity};
ghost use Rattle.cspf_model.specs.declared.request.Request.{Request as OneRequest};
ghost use Rattle.cspf_jobs.specs.declared.limits.TheConstants.{MOST_DRAWERS};
ghost use Rattle.cspf_publish.specs.AskerStates.{AskerState};
ghost use Rattle.cspf_work.specs.Served.{IsFaultOfWorker};
ghost use Rattle.cspf_work.specs.Working.{IsIdle, IsRoomFor, AreReady, AreRun, AreResults, first_fault};

use crate::worker::{Reply, Results, Worker};
use cspf_jobs::{Counter, Drawer, FirstSeat, LastSeat};
use cspf_publish::Asker;
use std::alloc::{AllocError, Global};

/// Memory for the results of workers. It is allocated before any work begins. So all askers (the
/// objects that compute the answers) can be returned with every error.
#[derive(Drop)]
pub(crate) struct Room<'a> {
    pub(crate) askers: Vec<Asker>,
    pub(crate) drawers: Vec<Drawer<'a>>,
    pub(crate) lists: Vec<Vec<Reply>>,
}

/// The workers of one call, the counter from which they draw the indexes of requests, and the
/// memory for their results. `first` is the counter's first seat. It records the draws that no
/// worker may make yet.
#[derive(Drop)]
pub(crate) struct Crew<'a> {
    pub(crate) counter: &'a Counter,
    pub(crate) first: FirstSeat,
    pub(crate) workers: Vec<Worker<'a>>,
    pub(crate) room: Room<'a>,
    ghost seat: { first.counter ≡ counter.now },
    ghost shares: { first.shares + vec_len workers ≡ MOST_DRAWERS },
    ghost enough: { IsRoomFor (vec_len workers) room },
}

/// Memory for `count` workers, and for their results.
fn room_for<'a>(alloc: Global, count: usize) -> Result<(Vec<Worker<'a>>, Room<'a>), AllocError>
    ensures workers { IfOk result (λ all. (all.0.items ≡ []) × (count ≤ vec_capacity all.0)) }
    ensures room { IfOk result (λ all. IsRoomFor count all.1) }
{
    let workers = Vec::with_capacity(alloc, count)?;
    let askers = Vec::with_capacity(alloc, count)?;
    let drawers = Vec::with_capacity(alloc, count)?;
    let lists = Vec::with_capacity(alloc, count)?;
    Ok((
        workers,
        Room {
            askers,
            drawers,
            lists,
        },
    ))
}

/// Makes an idle worker for each asker (the object that computes a worker's answers).
fn workers_of<'a>(
    alloc: Global,
    counter: &'a Counter,
    first: &mut FirstSeat,
    askers: Vec<Asker>,
    room: Vec<Worker<'a>>,
) -> Vec<Worker<'a>>
    requires counter { first.old.counter ≡ counter.now }
    requires shares { vec_len askers ≤ first.old.shares }
    requires none { room.items ≡ [] }
    requires room { vec_len askers ≤ vec_capacity room }
    ensures askers { map (λ w. w.asker) result.items ≡ askers.items }
    ensures idle { All (IsIdle counter.now) result.items }
    ensures first { (first.new.shares + vec_len askers ≡ first.old.shares)
        × (first.new.counter ≡ first.old.counter) }
{
    let mut workers = room;
    for asker in askers {
        let drawer = counter.split(first);
        let worker = Worker {
            asker,
            drawer,
            done: Vec::new(alloc),
            fault: None,
        };
        workers.push_reserved(worker);
    }
    workers
}

/// Makes an idle worker for each asker (the object that computes a worker's answers). Allocates all
/// memory that the workers need before their first request. If memory is refused, the askers are
/// returned.
pub(crate) fn employ<'a>(
    alloc: Global,
    counter: &'a Counter,
    first: FirstSeat,
    askers: Vec<Asker>,
) -> Result<Crew<'a>, Vec<Asker>>
    requires first { (first.counter ≡ counter.now) × (first.shares ≡ MOST_DRAWERS) }
    requires askers { (0 < vec_len askers) × (vec_len askers ≤ MOST_DRAWERS) }
    ensures counter { IfOk result (λ crew. crew.counter.now ≡ counter.now) }
    ensures ready { IfOk result (λ crew. (requests : List OneRequest)
        → counter.now.requests ≡ length requests
        → AreReady counter.now requests askers.items crew.workers.items) }
    ensures back { IfErr result (λ back. back ≡ askers) }
{
    let Ok((workers, room)) = room_for(alloc, askers.len()) else {
        return Err(askers);
    };
    let mut first = first;
    let workers = workers_of(alloc, counter, &mut first, askers, workers);
    Ok(Crew {
        counter,
        first,
        workers,
        room,
    })
}

/// Splits workers that have ended into three lists: their askers (which computed the answers),
/// their replies, and their drawers (with which they drew from the counter). Also finds the first
/// fault.
fn part<'a>(workers: Vec<Worker<'a>>, room: Room<'a>) -> (Results, Vec<Drawer<'a>>)
    requires room { IsRoomFor (vec_len workers) room }
    requires faults { All (λ w. IfSome w.fault IsFaultOfWorker) workers.items }
    ensures askers { result.0.askers.items ≡ map (λ w. w.asker) workers.entry.items }
    ensures lists { result.0.lists.items ≡ map (λ w. w.done) workers.entry.items }
    ensures drawers { result.1.items ≡ map (λ w. w.drawer) workers.entry.items }
    ensures fault { IfSome result.0.fault IsFaultOfWorker }
    ensures none { IsNone result.0.fault → All (λ w. IsNone w.fault) workers.entry.items }
    ensures first { result.0.fault ≡ first_fault workers.entry.items }
{
    let Room {
        mut askers,
        mut drawers,
        mut lists,
    } = room;
    let mut first = None;
    for worker in workers {
        let Worker {
            asker,
            drawer,
            done,
            fault,
        } = worker;
        askers.push_reserved(asker);
        drawers.push_reserved(drawer);
        lists.push_reserved(done);
        first = first.or(fault);
    }
    let results = Results {
        askers,
        lists,
        fault: first,
    };
    (results, drawers)
}

/// Returns the results of workers that have ended, and the counter's last seat. In proofs this seat
/// records the numbers that all workers drew.
pub(crate) fn dismiss(crew: Crew<'_>) -> (Results, LastSeat)
    requires { (requests : List OneRequest) × (before : List AskerState)
        × AreRun crew.counter.now requests before crew.workers.items }
    ensures counter { result.1.counter ≡ crew.entry.counter.now }
    ensures results { (requests : List OneRequest) (before : List AskerState)
        → AreRun crew.entry.counter.now requests before crew.entry.workers.items
        → AreResults crew.entry.counter.now requests before
        result.1.drawn result.0 crew.entry.workers.items }
{
    let Crew {
        counter,
        first,
        workers,
        room,
    } = crew;
    let (results, drawers) = part(workers, room);
    let last = counter.join(first, drawers);
    (results, last)
}
