//! The search for a pair, or for the reason why there is none. Nothing of what it finds is trusted.

use crate::found::{Found, Verdict};
use crate::lists::{put, value_or};
use crate::search::Search;
use crate::ways_found::{first_way, take_way};
use cspf_addr::Addr;
use cspf_db::Table;
use cspf_pair::PairRequest;
use std::alloc::{AllocError, Global};
use std::cmp::Ordering;

/// The cost of the links with these rows.
fn cost_of(table: &Table, rows: &[usize]) -> u64 {
    let links = table.links();
    let mut cost: u64 = 0;
    for row in rows {
        if let Some(link) = links.get(*row) {
            cost = cost.saturating_add(u64::from(link.metric));
        }
    }
    cost
}

/// Compares the local addresses of two ways of equally many links.
fn compare_locals(table: &Table, one: &[usize], other: &[usize]) -> Ordering {
    let links = table.links();
    for at in 0..one.len() {
        let first = links.get(value_or(one, at, 0));
        let second = links.get(value_or(other, at, 0));
        if let (Some(first), Some(second)) = (first, second) {
            if first.local != second.local {
                return first.local.cmp(&second.local);
            }
        }
    }
    Ordering::Equal
}

/// Whether the second way comes before the first in the order of walks.
fn is_behind(table: &Table, one: &[usize], other: &[usize]) -> bool {
    let costs = cost_of(table, other).cmp(&cost_of(table, one));
    let links = other.len().cmp(&one.len());
    costs.then(links).then(compare_locals(table, other, one)) == Ordering::Less
}

/// The number at each router's state where links arrive, or where links leave. The head-end has the
/// number where links leave, and the tail-end the number where links arrive.
fn list_numbers(
    alloc: Global,
    search: &Search<'_>,
    count: usize,
    arrive: bool,
    numbers: &[u64],
) -> Result<Vec<u64>, AllocError> {
    let mut list = Vec::with_capacity(alloc, count)?;
    for place in 0..count {
        let arrives = place == search.to || (arrive && place != search.from);
        let state = if arrives {
            search.arriving(place)
        } else {
            search.leaving(place)
        };
        list.push(value_or(numbers, state, 0))?;
    }
    Ok(list)
}

/// The number 0 for each state that the last search has reached, and 1 for each other state.
fn list_unreached(alloc: Global, search: &Search<'_>) -> Result<Vec<u64>, AllocError> {
    let count = search.potentials.len();
    let mut list = Vec::from_elem(alloc, 1, count)?;
    for state in 0..count {
        if search.label(state).done {
            put(&mut list, state, 0);
        }
    }
    Ok(list)
}

/// What is found of this verdict, with these ways and these numbers of the states.
fn found_with(
    alloc: Global,
    search: &Search<'_>,
    table: &Table,
    verdict: Verdict,
    ways: (Vec<usize>, Vec<usize>),
    numbers: &[u64],
) -> Result<Found, AllocError> {
    let count = table.routers().len();
    let (one, other) = ways;
    Ok(Found {
        verdict,
        one,
        other,
        arriving: list_numbers(alloc, search, count, true, numbers)?,
        leaving: list_numbers(alloc, search, count, false, numbers)?,
    })
}

/// What is found if the last search doesn't reach the tail-end, with these ways.
fn found_unreached(
    alloc: Global,
    search: &Search<'_>,
    table: &Table,
    verdict: Verdict,
    ways: (Vec<usize>, Vec<usize>),
) -> Result<Found, AllocError> {
    let numbers = list_unreached(alloc, search)?;
    found_with(alloc, search, table, verdict, ways, &numbers)
}

/// The pair that is found, cut into its ways.
fn found_pair(alloc: Global, search: Search<'_>, table: &Table) -> Result<Found, AllocError> {
    let mut search = search;
    let one = take_way(alloc, &mut search, table)?;
    let other = take_way(alloc, &mut search, table)?;
    let ways = if is_behind(table, &one, &other) {
        (other, one)
    } else {
        (one, other)
    };
    found_with(
        alloc,
        &search,
        table,
        Verdict::Pair,
        ways,
        &search.potentials,
    )
}

/// The link or the router of the first way behind which the last search has reached nothing.
fn reason(search: &Search<'_>, table: &Table, way: &[usize]) -> Verdict {
    let links = table.links();
    let ends = table.ends();
    for row in way {
        let end = usize::from(value_or(ends, *row, 0));
        if !search.label(search.arriving(end)).done {
            return Verdict::EachBy(*row);
        }
        if end != search.to && !search.label(search.leaving(end)).done {
            return match links.get(*row) {
                Some(link) => Verdict::EachThrough(link.to),
                None => Verdict::NoWay,
            };
        }
    }
    Verdict::NoWay
}

/// Searches for the least pair between the routers with the indexes `from` and `to` in
/// `Table::routers`, or for the reason why there is none. What it finds may be wrong.
pub fn find(
    alloc: Global,
    table: &Table,
    request: &PairRequest,
    from: usize,
    to: usize,
) -> Result<Found, AllocError> {
    let mut search = Search::begin(alloc, table, request, from, to)?;
    let start = search.leaving(from);
    let goal = search.arriving(to);
    let Some(distance) = search.run(start, goal, u64::MAX)? else {
        let none = (Vec::new(alloc), Vec::new(alloc));
        return found_unreached(alloc, &search, table, Verdict::NoWay, none);
    };
    search.raise(distance);
    let way = first_way(alloc, &search)?;
    search.exchange(start, goal);
    let Some(distance) = search.run(start, goal, u64::MAX)? else {
        let verdict = reason(&search, table, &way);
        return found_unreached(alloc, &search, table, verdict, (way, Vec::new(alloc)));
    };
    search.raise(distance);
    search.exchange(start, goal);
    found_pair(alloc, search, table)
}
