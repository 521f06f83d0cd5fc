//! Times the changes of a table, and its two searches: `best` and the search by rounds.
//!
//! `best` answers all requests several times, and prints `best ANSWERS COST MICROSECONDS`. COST is
//! the sum of the routes' costs. The search by rounds answers the first ROUNDS requests, and prints
//! `rounds ANSWERS COST MICROSECONDS`. `agreed ANSWERS` is the number of these requests on which
//! both searches agree. Then each batch after the batches of the network is checked, absorbed and
//! timed: `absorb CHANGES MICROSECONDS`.
//!
//! A run of one search answers all requests several times by this search, and prints `one ANSWERS
//! COST`. `bench/run --instructions` counts the instructions of such a run, and of a run that
//! answers no request.

use cspf_db::Table;
use cspf_model::{Batch, Outcome, Request};
use cspf_search::{best, best_by_rounds};
use cspf_trees::{Growth, MOST_TREES, TreeTable};
use std::alloc::{AllocError, Global};
use std::io;
use std::io::ErrorKind;
use std::rt::Clock;
use std::time::Instant;

/// The number of times that `best` answers all requests.
const TIMES: usize = 5;

/// What a run of one search answers all requests with.
#[derive(Clone, Copy)]
pub(crate) enum OneSearch {
    /// Nothing: the run answers no request.
    Nothing,
    /// The function `best`, by a table.
    Best,
    /// A table with trees that grows no tree.
    Trees,
}

/// The cost of the route, or 0 if there is no route.
fn cost(outcome: &Outcome) -> u64 {
    match outcome {
        Outcome::Route(route) => route.cost(),
        _ => 0,
    }
}

/// Whether both outcomes are the same route, or give the same reason why there is no route.
fn agree(one: &Outcome, other: &Outcome) -> bool {
    match (one, other) {
        (Outcome::Route(a), Outcome::Route(b)) => a.links() == b.links(),
        (Outcome::NoRoute, Outcome::NoRoute) => true,
        (Outcome::UnknownFrom, Outcome::UnknownFrom) => true,
        (Outcome::UnknownTo, Outcome::UnknownTo) => true,
        _ => false,
    }
}

/// The answer to a request, found by `best` or by the search by rounds.
fn answer(
    alloc: Global,
    table: &Table,
    request: &Request,
    by_rounds: bool,
) -> Result<Outcome, AllocError> {
    if by_rounds {
        best_by_rounds(alloc, table, request)
    } else {
        best(alloc, table, request)
    }
}

/// Answers each request. Returns the number of answered requests, and the sum of the routes' costs.
fn answer_each(
    alloc: Global,
    table: &Table,
    requests: &[Request],
    by_rounds: bool,
) -> (usize, u64) {
    let (mut answers, mut sum) = (0usize, 0u64);
    for request in requests {
        if let Ok(outcome) = answer(alloc, table, request, by_rounds) {
            answers = answers.saturating_add(1);
            sum = sum.saturating_add(cost(&outcome));
        }
    }
    (answers, sum)
}

/// Whether both searches agree on a request.
fn is_agreed(alloc: Global, table: &Table, request: &Request) -> bool {
    match (
        best(alloc, table, request),
        best_by_rounds(alloc, table, request),
    ) {
        (Ok(one), Ok(other)) => agree(&one, &other),
        _ => false,
    }
}

/// Times all requests. Returns the number of answered requests, the sum of the routes' costs, and
/// the microseconds.
fn timed<R: AllocGlobal + Clock + Print>(
    rt: &R,
    table: &Table,
    requests: &[Request],
    by_rounds: bool,
) -> io::Result<(usize, u64, u128)> {
    let start = Instant::now(rt)?;
    let (answers, sum) = answer_each(rt.alloc(), table, requests, by_rounds);
    Ok((answers, sum, start.elapsed(rt)?.as_micros()))
}

/// Times all requests in a table without trees of lower bounds, and prints `plain ANSWERS
/// MICROSECONDS`.
pub(crate) fn time_plain<R: AllocGlobal + Clock + Print>(
    rt: &R,
    table: &Table,
    requests: &[Request],
) -> io::Result<()> {
    let (answers, _, took) = timed(rt, table, requests, false)?;
    println!(rt; "plain {answers} {took}")
}

/// Times `best` on all requests, and the search by rounds on a few of them.
pub(crate) fn time_searches<R: AllocGlobal + Clock + Print>(
    rt: &R,
    table: &Table,
    requests: &[Request],
    few: &[Request],
) -> io::Result<()> {
    for _time in 0..TIMES {
        let (answers, sum, took) = timed(rt, table, requests, false)?;
        println!(rt; "best {answers} {sum} {took}")?;
    }
    let (answers, sum, took) = timed(rt, table, few, true)?;
    println!(rt; "rounds {answers} {sum} {took}")?;
    let agreed = few
        .iter()
        .filter(|request| is_agreed(rt.alloc(), table, request));
    println!(rt; "agreed {}", agreed.count())
}

/// Answers each request by a table with trees. Returns the number of answered requests, and the sum
/// of the routes' costs.
fn answer_by_trees(alloc: Global, table: &mut TreeTable, requests: &[Request]) -> (usize, u64) {
    let (mut answers, mut sum) = (0usize, 0u64);
    for request in requests {
        if let Ok(outcome) = table.best(alloc, request) {
            answers = answers.saturating_add(1);
            sum = sum.saturating_add(cost(&outcome));
        }
    }
    (answers, sum)
}

/// Answers all requests once by one search.
fn answer_once(
    alloc: Global,
    table: &mut TreeTable,
    requests: &[Request],
    search: OneSearch,
) -> (usize, u64) {
    match search {
        OneSearch::Nothing => (0, 0),
        OneSearch::Best => answer_each(alloc, table.table(), requests, false),
        OneSearch::Trees => answer_by_trees(alloc, table, requests),
    }
}

/// Makes the network of the batches `load`, answers all requests `TIMES` times by one search, and
/// prints `one ANSWERS COST`.
pub(crate) fn run_one<R: AllocGlobal + Print>(
    rt: &R,
    load: &[Batch],
    requests: &[Request],
    search: OneSearch,
) -> io::Result<()> {
    let mut table = TreeTable::with_growth(rt.alloc(), MOST_TREES, Growth::Never)?;
    for batch in load {
        let _ = table.try_absorb(batch);
    }
    let mut found = (0, 0);
    for _time in 0..TIMES {
        found = answer_once(rt.alloc(), &mut table, requests, search);
    }
    println!(rt; "one {} {}", found.0, found.1)
}

/// Times each batch: the check whether it fits, and its changes in the table.
pub(crate) fn time_batches<R: AllocGlobal + Clock + Print>(
    rt: &R,
    table: &mut Table,
    batches: &[Batch],
) -> io::Result<()> {
    for batch in batches {
        let start = Instant::now(rt)?;
        let fits = table.try_absorb(batch).is_ok();
        let took = start.elapsed(rt)?.as_micros();
        if !fits {
            return Err(io::Error::from(ErrorKind::InvalidInput));
        }
        println!(rt; "absorb {} {took}", batch.changes.len())?;
    }
    Ok(())
}
