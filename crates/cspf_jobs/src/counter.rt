//! The counter: an atomic number from which workers draw. A draw reads the number and adds 1 to it
//! in one step.
ghost use Rattle.std.specs.Prelude.{◌≡◌, ◌+◌, ◌<◌, ◌≤◌, [], All, IfOk, vec_len, flat_map};
ghost use Rattle.std.specs.List.Sorted.{IsStrictlyIncreasing};
ghost use Rattle.cspf_jobs.specs.EachOnce.{HoldsEachOnce};

use crate::draw_rule::{DrawRule, Share};
use crate::drawer::Drawer;
use crate::limits::{MOST_DRAWERS, MOST_REQUESTS};
use crate::seat_draws::SeatDraws;
use crate::seats::{FirstSeat, LastSeat};
use atomic_table::Table;
use std::alloc::{AllocError, Global};
use std::marker::Model;

/// A counter: one atomic number, which is called its *word* and is 0 at first. Each draw returns
/// the word and adds 1 to it, in one atomic step.
#[derive(Drop)]
pub struct Counter {
    table: Table<u64, SeatDraws, u64, DrawRule, Global>,
    requests: u64,
}

impl Model for Counter {
    ghost use Rattle.std.specs.Prelude.{◌≡◌, ◌≤◌};
    ghost use Rattle.cspf_jobs.specs.declared.limits.TheConstants.{MOST_REQUESTS};
    ghost use Rattle.cspf_jobs.specs.DrawnNumbers.{CounterId};

    ghost Value = { CounterId };

    ghost view = { λ c. record { table = c.table.shared.table_id; requests = c.requests } };

    ghost invariant = { λ c. (c.table.shared.key ≡ c.requests) × (c.requests ≤ MOST_REQUESTS)
        × (c.table.shared.table_id.words ≡ 1) × (c.table.shared.table_id.slots ≡ 0) };
}

impl Counter {
    /// Makes a counter for `requests` requests, and its first seat (a record of draws). No number
    /// is drawn yet. The first seat has the draws of all drawers. Each worker has one drawer.
    pub fn open(alloc: Global, requests: u64) -> Result<(Counter, FirstSeat), AllocError>
        requires { requests ≤ MOST_REQUESTS }
        ensures first { IfOk result (λ opened. (opened.1.shares ≡ MOST_DRAWERS) × (opened.1.counter ≡ opened.0)) }
        ensures requests { IfOk result (λ opened. opened.0.requests ≡ requests) }
    {
        let (table, seat) = Table::of_words(alloc, &[0], &requests)?;
        let first = FirstSeat {
            seat,
            requests,
            shares: MOST_DRAWERS,
        };
        Ok((Counter { table, requests }, first))
    }

    /// Makes a drawer, with which one worker draws numbers. The drawer gets its draws from the
    /// first seat, which has the draws that no drawer has yet. The drawer may draw once more than
    /// there are requests. The call allocates no memory.
    pub fn split<'a>(&'a self, first: &mut FirstSeat) -> Drawer<'a>
        requires counter { first.old.counter ≡ self.now }
        requires some { 0 < first.old.shares }
        ensures first { (first.new.shares + 1 ≡ first.old.shares) × (first.new.counter ≡ first.old.counter) }
        ensures drawer { result ≡ record { drawn = []; left = self.now.requests + 1; counter = self.now } }
    {
        let seat = self.table.shared.split_seat::<Share>(&mut first.seat);
        first.shares -= 1;
        Drawer::new(&self.table.shared, seat, self.requests + 1)
    }

    /// Ends all drawers (one for each worker that draws), and merges their drawn numbers, in the
    /// order of the drawers, into the last seat. The last seat is the record of all draws. The call
    /// allocates no memory.
    pub fn join(&self, first: FirstSeat, drawers: Vec<Drawer<'_>>) -> LastSeat
        requires counter { (first.counter ≡ self.now) × All (λ d. d.counter ≡ self.now) drawers.items }
        requires all { first.shares + vec_len drawers ≡ MOST_DRAWERS }
        ensures drawn { result.drawn ≡ flat_map (λ d. d.drawn) drawers.entry.items }
        ensures rising { All (λ d. IsStrictlyIncreasing d.drawn) drawers.entry.items }
        ensures counter { result.counter ≡ self.now }
    {
        let FirstSeat {
            seat,
            requests,
            shares: _,
        } = first;
        let mut seat = seat;
        for drawer in drawers {
            self.table
                .shared
                .join_seat::<Share>(&mut seat, drawer.into_seat());
        }
        LastSeat { seat, requests }
    }

    /// Ends the counter, and returns how many numbers were drawn. Each number below the result was
    /// drawn once, and no other number was drawn.
    pub fn close(self, last: LastSeat) -> u64
        requires { last.counter ≡ self }
        ensures { HoldsEachOnce result last.drawn }
    {
        let Counter { table, requests: _ } = self;
        let LastSeat { seat, requests: _ } = last;
        let closed = table.close_with(seat);
        let word = closed.word(0);
        closed.free();
        word
    }
}
