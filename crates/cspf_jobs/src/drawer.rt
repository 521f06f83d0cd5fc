//! A drawer: the object with which one worker thread draws numbers from a counter.
ghost use Rattle.std.specs.Prelude.{◌≡◌, ◌+◌, ◌<◌, ◌++◌, [], ◌∷◌, length, All};
ghost use Rattle.std.specs.List.Sorted.{IsStrictlyIncreasing};

use crate::draw_rule::{Draw, Word, WordSeat};
use std::marker::Model;

/// Draws numbers from a counter for one worker, at most one more than there are requests.
///
/// Only `Counter::split` makes drawers (values of this type). A drawer may be kept in a struct or a
/// `Vec`, and sent to another thread.
#[derive(Drop)]
pub struct Drawer<'a> {
    word: &'a Word,
    seat: WordSeat,
    left: u64,
}

impl<'a> Model for Drawer<'a> {
    ghost use Rattle.std.specs.Prelude.{◌≡◌, []};
    ghost use Rattle.cspf_jobs.specs.DrawnNumbers.{DrawnNumbers};
    ghost use Rattle.cspf_jobs.specs.SeatDraws.{IsDrawer};

    ghost Value = { DrawnNumbers };

    ghost view = { λ d. record { drawn = d.seat.me.0.drawn; left = d.left; counter = record { table = d.seat.table_id; requests = d.word.now.key } } };

    ghost invariant = { λ d. (d.seat.table_id ≡ d.word.now.table_id) × (d.word.now.table_id.words ≡ 1)
        × (d.left ≡ d.seat.me.0.left) × IsDrawer d.word.now.key d.seat.me.0 × (d.seat.me.1 ≡ []) };
}

impl<'a> Drawer<'a> {
    ghost use Rattle.std.specs.Prelude.{◌≡◌, ◌+◌, ◌<◌, ◌++◌, [], ◌∷◌, length, All};
    ghost use Rattle.std.specs.List.Sorted.{IsStrictlyIncreasing};
    ghost use Rattle.cspf_jobs.specs.SeatDraws.{IsDrawer};

    /// Makes a drawer, which may draw `left` more times. A worker draws numbers with a drawer. In
    /// proofs, the drawer's seat records the numbers that it has drawn.
    pub(crate) fn new(word: &'a Word, seat: WordSeat, left: u64) -> Drawer<'a>
        requires home { (seat.table_id ≡ word.now.table_id) × (word.now.table_id.words ≡ 1) }
        requires left { (left ≡ seat.me.0.left) × (seat.me.1 ≡ []) }
        requires share { IsDrawer word.now.key seat.me.0 }
        ensures { result ≡ record { drawn = seat.me.0.drawn; left = left; counter = record { table = seat.table_id; requests = word.now.key } } }
    {
        Drawer { word, seat, left }
    }

    /// Ends the drawer, with which one worker draws, and returns its seat. In proofs, the seat
    /// records the numbers that the drawer has drawn.
    pub(crate) fn into_seat(self) -> WordSeat
        ensures seat { (result.table_id ≡ self.entry.counter.table) × (result.me.1 ≡ []) }
        ensures drawn { (result.me.0.drawn ≡ self.entry.drawn) × IsDrawer self.entry.counter.requests result.me.0 }
    {
        let Drawer {
            word: _,
            seat,
            left: _,
        } = self;
        seat
    }

    /// How often this drawer may still draw. One worker draws with it.
    pub fn left(&self) -> u64
        ensures left { result ≡ self.now.left }
        ensures all { length self.now.drawn + self.now.left ≡ self.now.counter.requests + 1 }
        ensures rising { IsStrictlyIncreasing self.now.drawn }
    {
        self.left
    }

    /// Draws a number: returns the counter's value and adds 1 to the counter, in one atomic step.
    /// No other draw returns this number. The call allocates no memory and never blocks.
    pub fn draw(&mut self) -> u64
        requires { 0 < self.old.left }
        ensures drawn { self.new.drawn ≡ self.old.drawn ++ result ∷ [] }
        ensures left { self.new.left + 1 ≡ self.old.left }
        ensures above { All (λ x. x < result) self.old.drawn }
        ensures counter { self.new.counter ≡ self.old.counter }
    {
        let number = self.word.fetch_add::<Draw>(&mut self.seat, 0, 1);
        self.left -= 1;
        number
    }
}
