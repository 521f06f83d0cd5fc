//! Cuts the links of both ways into two ways. Of all least pairs it takes the one whose first way
//! has the smaller list of local addresses, and then the one whose second way has. At each router
//! the links are tried in order of their local addresses. A link that no way has is *tight* if it
//! may be exchanged for links of the ways without a change of their total weight. It is exchanged if
//! a search finds a path from its end back to its start over tight links, and back over tight links
//! of the ways.

use crate::lists::{put, value_or};
use crate::search::{NO_ROW, Search, weight_of};
use cspf_db::{NO_LINK, Table};
use cspf_graph::{accepts, may_be_left};
use std::alloc::{AllocError, Global};

/// The greatest number of links of a way.
const MOST_STEPS: usize = 4_096;

/// Whether the request may use the link, which begins at the router `place` with the index `at`
/// among its links, and the potential rises over it by exactly its weight.
fn is_tight(search: &Search<'_>, table: &Table, place: usize, at: usize) -> bool {
    if place >= table.routers().len() || !may_be_left(table, place, search.request) {
        return false;
    }
    let Some(link) = table.out_at(place).get(at) else {
        return false;
    };
    let end = usize::from(value_or(table.ends_at(place), at, 0));
    let here = search.potential(search.leaving(place));
    let there = search.potential(search.arriving(end));
    here.saturating_add(weight_of(link)) == there
        && value_or(table.reverses_at(place), at, NO_LINK) != NO_LINK
        && accepts(link, search.request)
}

/// Whether a way has the link `row` from the router `place` to the router `end`, after an exchange
/// if need be. Then the link stays in the way. No search since `forget` has found an exchange for
/// another link from this router, so no state at which such a search has looked leads to one.
fn fix(search: &mut Search<'_>, row: usize, place: usize, end: usize) -> Result<bool, AllocError> {
    let is_used = value_or(&search.used, row, false);
    put(&mut search.used, row, true);
    put(&mut search.fixed, row, true);
    if is_used {
        return Ok(true);
    }
    let start = search.arriving(end);
    let goal = search.leaving(place);
    if search.run_on(start, goal, 0)?.is_some() {
        search.exchange(start, goal);
        return Ok(true);
    }
    put(&mut search.used, row, false);
    put(&mut search.fixed, row, false);
    Ok(false)
}

/// The first link from the router that a least pair may have after the links that are fixed, or
/// `NO_ROW`. Then this link is fixed.
fn next_row(search: &mut Search<'_>, table: &Table, place: usize) -> Result<usize, AllocError> {
    if place >= table.routers().len() {
        return Ok(NO_ROW);
    }
    let first = value_or(&search.firsts, place, 0);
    let mut is_first = true;
    for at in 0..table.out_at(place).len() {
        let row = first.saturating_add(at);
        let end = usize::from(value_or(table.ends_at(place), at, 0));
        let is_free = !value_or(&search.fixed, row, true);
        let is_used = value_or(&search.used, row, false);
        if is_free && (is_used || is_tight(search, table, place, at)) {
            if !is_used && is_first {
                search.forget();
                is_first = false;
            }
            if fix(search, row, place, end)? {
                return Ok(row);
            }
        }
    }
    Ok(NO_ROW)
}

/// Takes one way from the links of both ways, and fixes its links.
pub(crate) fn take_way(
    alloc: Global,
    search: &mut Search<'_>,
    table: &Table,
) -> Result<Vec<usize>, AllocError> {
    let ends = table.ends();
    let mut rows = Vec::new(alloc);
    let mut place = search.from;
    for _step in 0..MOST_STEPS {
        if place == search.to {
            break;
        }
        let row = next_row(search, table, place)?;
        if row == NO_ROW {
            break;
        }
        rows.push(row)?;
        place = usize::from(value_or(ends, row, 0));
        put(&mut search.held, place, true);
    }
    Ok(rows)
}

/// The links over which the last search has come from the head-end to the tail-end, in order, if it
/// went back over none.
pub(crate) fn first_way(alloc: Global, search: &Search<'_>) -> Result<Vec<usize>, AllocError> {
    let start = search.leaving(search.from);
    let mut rows = Vec::new(alloc);
    let mut state = search.arriving(search.to);
    for _step in 0..MOST_STEPS {
        if state == start {
            break;
        }
        let label = search.label(state);
        if label.row != NO_ROW {
            rows.push(label.row)?;
        }
        state = label.parent;
    }
    rows.reverse();
    Ok(rows)
}
