//! `routed_bench JOURNAL REQUESTS LOAD` times requests in a table without trees of lower bounds,
//! and then a publisher and its askers. `routed_bench JOURNAL REQUESTS LOAD ROUNDS` times two
//! searches, `best` and the search by rounds, and then the changes of a table. `routed_bench JOURNAL
//! REQUESTS LOAD SEARCH` answers the requests several times by one search, so that its instructions
//! can be counted: `best`, `trees` (a table with trees that grows no tree) or `nothing`.
//!
//! The first LOAD batches of the journal make the network. `runs.rt` and `searches.rt` describe the
//! measurements. `bench/run` makes the files, and reads the printed lines.
#![tactic(auto)]

mod published;
mod runs;
mod searches;
mod workers;

use cspf_db::Table;
use cspf_model::{Batch, Request};
use cspf_rows::{read_journal, read_requests};
use runs::time_publisher;
use searches::{OneSearch, run_one, time_batches, time_plain, time_searches};
use std::alloc::{AllocError, Global};
use std::fs::File;
use std::io::ErrorKind;
use std::rt::Clock;
use std::sync::Wait;
use std::thread::Threads;
use std::{env, io};

/// The error of a wrong argument or input.
fn refused() -> io::Error {
    io::Error::from(ErrorKind::InvalidInput)
}

/// The batches of the journal `journal`, and the requests of the file `requests`.
fn read(rt: &HostRuntime, journal: &str, requests: &str) -> io::Result<(Vec<Batch>, Vec<Request>)> {
    let Ok(journal) = read_journal(rt.alloc(), File::open(rt, journal)?) else {
        return Err(refused());
    };
    let Ok(requests) = read_requests(rt.alloc(), File::open(rt, requests)?) else {
        return Err(refused());
    };
    Ok((journal.batches, requests))
}

/// A table that has absorbed these batches.
fn loaded(alloc: Global, load: &[Batch]) -> Result<Table, AllocError> {
    let mut table = Table::new(alloc)?;
    for batch in load {
        table.absorb(batch);
    }
    Ok(table)
}

/// Makes the network of the batches `load`. If `rounds` is given, times `best` on all requests and
/// the search by rounds on the first `rounds` requests, and then the batches `more`. Otherwise
/// times the requests in the table without trees of lower bounds, and then a publisher.
fn time<R: AllocGlobal + Clock + Print + Threads + Wait + Sync>(
    rt: &R,
    (load, more): (&[Batch], &[Batch]),
    requests: &[Request],
    rounds: Option<usize>,
) -> io::Result<()> {
    let mut table = loaded(rt.alloc(), load)?;
    match rounds {
        Some(rounds) => {
            let few = requests.get(..rounds).ok_or(refused())?;
            time_searches(rt, &table, requests, few)?;
            time_batches(rt, &mut table, more)
        }
        None => {
            time_plain(rt, &table, requests)?;
            time_publisher(rt, load, more, requests)
        }
    }
}

/// Reads an argument as a number.
fn number(word: &str) -> io::Result<usize> {
    word.parse().map_err(|_| refused())
}

/// What a run does with the requests.
#[derive(Clone, Copy)]
enum Task {
    /// It times what `time` times, with this number of rounds.
    Times(Option<usize>),
    /// It answers the requests by one search.
    One(OneSearch),
}

/// Reads an argument as the name of one search, or else as the number of requests that the search
/// by rounds answers.
fn task_of(word: &str) -> io::Result<Task> {
    match word {
        "nothing" => Ok(Task::One(OneSearch::Nothing)),
        "best" => Ok(Task::One(OneSearch::Best)),
        "trees" => Ok(Task::One(OneSearch::Trees)),
        _ => Ok(Task::Times(Some(number(word)?))),
    }
}

/// Reads the last arguments, LOAD and perhaps ROUNDS or SEARCH: the number of batches that make the
/// network, and the task.
fn last_arguments(words: &[String]) -> io::Result<(usize, Task)> {
    match words {
        [load] => Ok((number(load.as_str())?, Task::Times(None))),
        [load, task] => Ok((number(load.as_str())?, task_of(task.as_str())?)),
        _ => Err(refused()),
    }
}

fn main(rt: HostRuntime) -> io::Result<()> {
    let words: Vec<String> = env::args(&rt)?.collect(rt.alloc())?;
    let [_, journal, requests, more @ ..] = words.as_slice() else {
        return Err(refused());
    };
    let (load, task) = last_arguments(more)?;
    let (batches, requests) = read(&rt, journal.as_str(), requests.as_str())?;
    match (batches.get(..load), batches.get(load..)) {
        (Some(first), Some(more)) => match task {
            Task::Times(rounds) => time(&rt, (first, more), &requests, rounds),
            Task::One(search) => run_one(&rt, first, &requests, search),
        },
        _ => Err(refused()),
    }
}
