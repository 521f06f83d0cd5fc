//! The searches for a pair: Dijkstra's algorithm over what the ways found so far leave (Suurballe's
//! algorithm). Nothing of what they find is trusted, so their contracts say nothing of it.
//!
//! A *state* is a router where links arrive, or a router where links leave. If the ways may share
//! routers, each router has only the first of these states. A search goes over each usable link
//! that no way has. It also goes back over the links of the ways, which then leave them. If the ways
//! must not share routers, it passes only through routers that no way passes through.

use crate::lists::{put, value_or};
use cspf_db::{NO_LINK, Table};
use cspf_graph::{accepts, may_be_left};
use cspf_model::{Link, Request};
use cspf_pair::{COST_WEIGHT, Kind, PairRequest};
use std::alloc::{AllocError, Global};
use std::cmp::Reverse;
use std::collections::BinaryHeap;

/// The greatest number of keys that a search takes from its heap. A search puts fewer keys into the
/// heap: at most two for each link, and two for each router.
const MOST_TURNS: usize = 65_536;

/// The greatest number of steps of a path that is followed back.
const MOST_STEPS: usize = 4_096;

/// The number of keys for which the heap has room at the start.
const ROOM_FOR_KEYS: usize = 512;

/// The row of a step within a router, which leads over no link.
pub(crate) const NO_ROW: usize = usize::MAX;

/// What a search knows of a state.
#[derive(Clone, Copy)]
pub(crate) struct StateLabel {
    /// The least distance found so far.
    pub(crate) distance: u64,
    /// The state before this state.
    pub(crate) parent: usize,
    /// The index in `Table::links` of the link between the two states, or `NO_ROW`.
    pub(crate) row: usize,
    /// Whether the distance is final.
    pub(crate) done: bool,
}

/// The label of a state that no search has reached.
const UNREACHED: StateLabel = StateLabel {
    distance: u64::MAX,
    parent: 0,
    row: NO_ROW,
    done: false,
};

/// The state of the searches for a pair. A link is named by its index in `Table::links`, and a
/// router by its index in `Table::routers`.
#[derive(Drop)]
pub(crate) struct Search<'a> {
    /// The table.
    pub(crate) table: &'a Table,
    /// The request.
    pub(crate) request: &'a Request,
    /// Whether the ways must not share routers.
    split: bool,
    /// The head-end.
    pub(crate) from: usize,
    /// The tail-end.
    pub(crate) to: usize,
    /// The greatest distance that the present search gives a state.
    most: u64,
    /// For each router its first link.
    pub(crate) firsts: Vec<usize>,
    /// For each link whether a way has it.
    pub(crate) used: Vec<bool>,
    /// For each link whether it stays in its way.
    pub(crate) fixed: Vec<bool>,
    /// For each router whether a way passes through it. If the ways may share routers, this isn't
    /// noted.
    passed: Vec<bool>,
    /// For each router whether a way passes through it from now on.
    pub(crate) held: Vec<bool>,
    /// For each state its potential.
    pub(crate) potentials: Vec<u64>,
    /// For each state its label.
    labels: Vec<StateLabel>,
    /// The states that wait, by distance.
    heap: BinaryHeap<Reverse<(u64, usize)>, Global>,
}

/// For each router its first link.
fn list_firsts(alloc: Global, table: &Table) -> Result<Vec<usize>, AllocError> {
    let count = table.routers().len();
    let mut firsts = Vec::with_capacity(alloc, count)?;
    let mut first: usize = 0;
    for place in 0..count {
        firsts.push(first)?;
        first = first.saturating_add(table.out_at(place).len());
    }
    Ok(firsts)
}

/// The weight of the link by size.
pub(crate) fn weight_of(link: &Link) -> u64 {
    u64::from(link.metric) * COST_WEIGHT + 1
}

impl<'a> Search<'a> {
    /// A search between these routers, before any way is found.
    pub(crate) fn begin(
        alloc: Global,
        table: &'a Table,
        request: &'a PairRequest,
        from: usize,
        to: usize,
    ) -> Result<Search<'a>, AllocError> {
        let routers = table.routers().len();
        let links = table.links().len();
        let states = routers.saturating_mul(2);
        Ok(Search {
            table,
            request: &request.request,
            split: request.kind == Kind::Routers,
            from,
            to,
            most: u64::MAX,
            firsts: list_firsts(alloc, table)?,
            used: Vec::from_elem(alloc, false, links)?,
            fixed: Vec::from_elem(alloc, false, links)?,
            passed: Vec::from_elem(alloc, false, routers)?,
            held: Vec::from_elem(alloc, false, routers)?,
            potentials: Vec::from_elem(alloc, 0, states)?,
            labels: Vec::from_elem(alloc, UNREACHED, states)?,
            heap: BinaryHeap::with_capacity(alloc, ROOM_FOR_KEYS)?,
        })
    }

    /// The state of the router where links arrive.
    pub(crate) fn arriving(&self, place: usize) -> usize {
        place.saturating_mul(2)
    }

    /// The state of the router where links leave.
    pub(crate) fn leaving(&self, place: usize) -> usize {
        let state = place.saturating_mul(2);
        if self.split {
            state.saturating_add(1)
        } else {
            state
        }
    }

    /// The potential of the state.
    pub(crate) fn potential(&self, state: usize) -> u64 {
        value_or(&self.potentials, state, 0)
    }

    /// The label of the state.
    pub(crate) fn label(&self, state: usize) -> StateLabel {
        value_or(&self.labels, state, UNREACHED)
    }

    /// Offers the state a distance over the link `row` from the state `parent`.
    fn offer(
        &mut self,
        state: usize,
        parent: usize,
        row: usize,
        distance: u64,
    ) -> Result<(), AllocError> {
        let label = self.label(state);
        if label.done || label.distance <= distance || distance > self.most {
            return Ok(());
        }
        let label = StateLabel {
            distance,
            parent,
            row,
            done: false,
        };
        put(&mut self.labels, state, label);
        self.heap.push(Reverse((distance, state)))?;
        Ok(())
    }

    /// Offers the router `end`, where the link arrives, if no way has the link and the request may
    /// use it. The link has a reverse.
    fn offer_end(
        &mut self,
        parent: usize,
        row: usize,
        link: &Link,
        end: usize,
        distance: u64,
    ) -> Result<(), AllocError> {
        let state = self.arriving(end);
        if self.label(state).done || value_or(&self.used, row, true) {
            return Ok(());
        }
        let here = self.potential(parent).saturating_add(weight_of(link));
        let step = here.saturating_sub(self.potential(state));
        let distance = distance.saturating_add(step);
        if distance > self.most || !accepts(link, self.request) {
            return Ok(());
        }
        self.offer(state, parent, row, distance)
    }

    /// Offers the router `start`, which the link `row` leaves, if a way has this link and may lose
    /// it.
    fn offer_start(
        &mut self,
        parent: usize,
        row: usize,
        start: usize,
        distance: u64,
    ) -> Result<(), AllocError> {
        if !value_or(&self.used, row, false) || value_or(&self.fixed, row, true) {
            return Ok(());
        }
        let Some(link) = self.table.links().get(row) else {
            return Ok(());
        };
        let state = self.leaving(start);
        let there = self.potential(state).saturating_add(weight_of(link));
        let step = self.potential(parent).saturating_sub(there);
        self.offer(state, parent, row, distance.saturating_add(step))
    }

    /// Offers the neighbors of the state's router: with `ahead` over links from the router, and with
    /// `back` over links to the router that a way has.
    fn look(
        &mut self,
        parent: usize,
        ahead: bool,
        back: bool,
        distance: u64,
    ) -> Result<(), AllocError> {
        let table = self.table;
        let place = parent / 2;
        if place >= table.routers().len() {
            return Ok(());
        }
        let ahead = ahead && may_be_left(table, place, self.request);
        let first = value_or(&self.firsts, place, 0);
        let links = table.out_at(place);
        let ends = table.ends_at(place);
        let reverses = table.reverses_at(place);
        for at in 0..links.len() {
            let reverse = value_or(reverses, at, NO_LINK);
            let end = usize::from(value_or(ends, at, 0));
            if ahead && reverse != NO_LINK {
                self.offer_end(parent, first.saturating_add(at), &links[at], end, distance)?;
            }
            if back && reverse != NO_LINK {
                self.offer_start(parent, usize::from(reverse), end, distance)?;
            }
        }
        Ok(())
    }

    /// Offers the other state of the router: the state where links leave if no way passes through
    /// the router, and the state where links arrive if a way passes through it and may leave it.
    fn cross(&mut self, parent: usize, distance: u64) -> Result<(), AllocError> {
        let place = parent / 2;
        if place == self.from || place == self.to || value_or(&self.held, place, true) {
            return Ok(());
        }
        let arrives = parent % 2 == 0;
        if arrives == value_or(&self.passed, place, false) {
            return Ok(());
        }
        let state = if arrives {
            self.leaving(place)
        } else {
            self.arriving(place)
        };
        let step = self.potential(parent).saturating_sub(self.potential(state));
        self.offer(state, parent, NO_ROW, distance.saturating_add(step))
    }

    /// Makes the state's distance final, and offers the states that follow it.
    fn settle(&mut self, state: usize, distance: u64) -> Result<(), AllocError> {
        let label = self.label(state);
        put(
            &mut self.labels,
            state,
            StateLabel {
                done: true,
                ..label
            },
        );
        let arrives = state % 2 == 0;
        if !self.split {
            return self.look(state, true, true, distance);
        }
        let place = state / 2;
        if !arrives {
            self.look(state, true, false, distance)?;
        } else if place == self.to || value_or(&self.passed, place, false) {
            self.look(state, false, true, distance)?;
        }
        self.cross(state, distance)
    }

    /// Forgets what the last search has found.
    pub(crate) fn forget(&mut self) {
        self.labels.fill(UNREACHED);
        self.heap.clear();
    }

    /// Searches from the state `start` to the state `goal`, and returns its distance. Returns `None`
    /// if the search doesn't reach `goal` by a distance of at most `most`.
    pub(crate) fn run(
        &mut self,
        start: usize,
        goal: usize,
        most: u64,
    ) -> Result<Option<u64>, AllocError> {
        self.forget();
        self.run_on(start, goal, most)
    }

    /// Like `run`, but passes through no state at which a search has looked since `forget`.
    pub(crate) fn run_on(
        &mut self,
        start: usize,
        goal: usize,
        most: u64,
    ) -> Result<Option<u64>, AllocError> {
        self.most = most;
        self.offer(start, start, NO_ROW, 0)?;
        for _turn in 0..MOST_TURNS {
            let Some(Reverse((distance, state))) = self.heap.pop() else {
                return Ok(None);
            };
            if state == goal {
                return Ok(Some(distance));
            }
            if !self.label(state).done {
                self.settle(state, distance)?;
            }
        }
        Ok(None)
    }

    /// Adds to each potential the distance of its state, or `most` if the distance isn't final.
    pub(crate) fn raise(&mut self, most: u64) {
        for state in 0..self.potentials.len() {
            let label = self.label(state);
            let more = if label.done { label.distance } else { most };
            let potential = self.potential(state).saturating_add(more);
            put(&mut self.potentials, state, potential);
        }
    }

    /// Changes the ways along the path that the last search has found from `start` to `goal`. They
    /// gain the links that it goes over, and lose the links that it goes back over.
    pub(crate) fn exchange(&mut self, start: usize, goal: usize) {
        let mut state = goal;
        for _step in 0..MOST_STEPS {
            if state == start {
                return;
            }
            let StateLabel { row, parent, .. } = self.label(state);
            if row == NO_ROW {
                let is_passed = value_or(&self.passed, parent / 2, false);
                put(&mut self.passed, parent / 2, !is_passed);
            } else {
                let is_used = value_or(&self.used, row, false);
                put(&mut self.used, row, !is_used);
            }
            state = parent;
        }
    }
}
